// Replays the test vectors of the line program: for each line of standard input the bytes that the
// program writes.
#![tactic(auto)]

ghost use Rattle.std.specs.Prelude.{◌<◌, ◌≤◌, length};

use sheet_bytes::{front, keep};
use sheet_input::{feed, finish};
use sheet_steps::{LINE, POOL, POSITIONS, REPLY, SCRATCH, TEXT};
use std::io;
use test_lines::{Answers, Bytes, Gathered, field, lent, read_bytes, replay};

const INPUT: usize = 524288;

// The bytes of one run, and twice as many as are shown of what it writes.
const RUN: usize = 262144;

fn main(rt: HostRuntime) {
    let mut input = [0u8; INPUT];
    let mut run = [0u8; RUN];
    let mut written = [0u8; RUN];
    let mut rows = Rows {
        run: &mut run,
        written: &mut written,
    };
    let _ = replay(&rt, &mut rt.stdin(), &mut input, &mut rows);
}

#[derive(Drop)]
struct Rows<'a> {
    run: &'a mut [u8],
    written: &'a mut [u8],
}

impl Answers for Rows<'_> {
    // program bytes, most bytes at a time => ok bytes, `-` for none
    fn answer(&mut self, rt: &impl Print, line: &[u8]) -> io::Result<()> {
        let (run, written) = (&mut *self.run, &mut *self.written);
        if !matches!(field(line, 0), b"program") {
            return print!(rt; "?");
        }
        let n = read_bytes(rt, field(line, 1), run);
        let most = lent(rt, field(line, 2), run.len());
        if most == 0 {
            return print!(rt; "?");
        }
        let k = program(&run[..n], most, written);
        print!(rt; "ok ")?;
        match front(written, k) {
            [] => print!(rt; "-"),
            bytes => print!(rt; "{}", Gathered(Bytes(front(bytes, RUN / 2)))),
        }
    }
}

// A run from a fresh pool. Answers how many bytes are written.
fn program(bytes: &[u8], most: usize, written: &mut [u8]) -> usize
    requires { 0 < most }
{
    let mut line = [0u8; LINE];
    let mut pool = [0u32; POOL];
    let mut scalars = [0u32; TEXT];
    let mut positions = [0u32; POSITIONS];
    let mut ends = [0u32; TEXT];
    let mut scratch = [0u32; SCRATCH];
    let mut out = [0u8; REPLY];
    let _ = trie_char::fresh(&mut pool);
    feed_all(
        bytes,
        most,
        written,
        &mut line,
        &mut pool,
        &mut scalars,
        &mut positions,
        &mut ends,
        &mut scratch,
        &mut out,
    )
}

fn feed_all(
    bytes: &[u8],
    most: usize,
    written: &mut [u8],
    line: &mut [u8],
    pool: &mut [u32],
    scalars: &mut [u32],
    positions: &mut [u32],
    ends: &mut [u32],
    scratch: &mut [u32],
    out: &mut [u8],
) -> usize
    requires { 0 < most }
{
    let mut used = 0;
    let mut kept = 0;
    let mut rest = bytes;
    // Each call takes a byte at least.
    for _turn in 0..bytes.len() {
        if rest.is_empty() {
            break;
        }
        let part = front(rest, most);
        let fed = feed(
            part, line, kept, pool, scalars, positions, ends, scratch, out,
        );
        used = keep(written, used, front(out, fed.written));
        kept = fed.kept;
        rest = rest.get(fed.taken..).unwrap_or(&[]);
    }
    let n = finish(line, kept, pool, scalars, positions, ends, scratch, out);
    keep(written, used, front(out, n))
}
