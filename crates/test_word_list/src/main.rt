// Replays the test vectors of word list images: a line with the answer for each line of standard
// input.
//
// The output of a writing is lent full of leftovers. Where it leaves a byte otherwise than
// documents 01 and 02 say, a `?` is written.
#![tactic(auto)]

ghost use Rattle.std.specs.Prelude.{◌≤◌, length};

use std::io;
use test_lines::{
    Answers, Bytes, Cells, Refused, field, first, lent, read_bytes, read_cells, replay,
};
use test_rows::{expect_leftovers, smear};
use word_list::read_image;
use word_list_write::write_image;

const INPUT: usize = 524288;

const POOL: usize = 32768;

const IMAGE: usize = 32768;

fn main(rt: HostRuntime) {
    let mut input = [0u8; INPUT];
    let mut pool = [0u32; POOL];
    let mut image = [0u8; IMAGE];
    let mut rows = Rows {
        pool: &mut pool,
        image: &mut image,
    };
    let _ = replay(&rt, &mut rt.stdin(), &mut input, &mut rows);
}

#[derive(Drop)]
struct Rows<'a> {
    pool: &'a mut [u32],
    image: &'a mut [u8],
}

impl Answers for Rows<'_> {
    fn answer(&mut self, rt: &impl Print, line: &[u8]) -> io::Result<()> {
        let cells = read_cells(rt, field(line, 1), self.pool);
        match field(line, 0) {
            b"imgread" => self.read(rt, field(line, 2), cells),
            _ => self.write(rt, field(line, 2), cells),
        }
    }
}

impl Rows<'_> {
    // imgread the pool's cells, image => ok words, or the refusal; the pool's cells then
    fn read(&mut self, rt: &impl Print, bytes: &[u8], cells: usize) -> io::Result<()> {
        let (pool, image) = (&mut *self.pool, &mut *self.image);
        let n = read_bytes(rt, bytes, image);
        let room = cells.min(pool.len());
        let image = &image[..n];
        let pool = &mut pool[..room];
        match read_image(pool, image) {
            Ok(words) => print!(rt; "ok {words} {}", Cells(pool)),
            Err(r) => print!(rt; "{} {}", Refused(r), Cells(pool)),
        }
    }

    // imgwrite the pool's cells, image bytes => ok image
    fn write(&mut self, rt: &impl Print, bytes: &[u8], cells: usize) -> io::Result<()> {
        let (pool, image) = (&mut *self.pool, &mut *self.image);
        let room = lent(rt, bytes, image.len());
        tell_image(rt, first(pool, cells), &mut image[..room])
    }
}

fn tell_image(rt: &impl Print, pool: &[u32], image: &mut [u8]) -> io::Result<()> {
    smear(image);
    match write_image(pool, image) {
        Ok(n) => {
            expect_leftovers(rt, image, n);
            print!(rt; "ok {}", Bytes(first(image, n)))
        }
        Err(r) => {
            expect_leftovers(rt, image, 0);
            print!(rt; "{}", Refused(r))
        }
    }
}
