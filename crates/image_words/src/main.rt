// The program that lists the words of an image. The image stands on standard input. The words go to
// standard output in their order, a word to a line, with a tab and its class in decimal behind a
// word of another class than 0. A refusal, or a read or a write that fails, is told in a line on
// standard error; no word is written where the image is refused.
#![tactic(auto)]

use image_record::{Record, record_at};
use refusal::Refusal;
use sheet_bytes::front;
use sheet_io::{Failure, read_some, write_whole};
use std::fmt;
use std::io::{Read, Write};
use word_lines::{LineError, write_line};
use word_list::read_image;

// An image has fewer bytes.
const IMAGE: usize = 524288;

// Cells of 32,768 nodes.
const POOL: usize = 262144;

// A word of 255 characters, a tab, five digits and a line feed.
const LINE: usize = 1027;

// Why the words are not listed.
#[derive(Drop)]
enum Stop {
    Io(Failure),
    TooLong,
    Image(Refusal),
}

impl From<Failure> for Stop {
    fn from(failure: Failure) -> Stop {
        Stop::Io(failure)
    }
}

impl fmt::Display for Stop {
    fn fmt<W: fmt::Write>(&self, f: &mut fmt::Formatter<W>) -> fmt::Result {
        match self {
            Stop::Io(failure) => write!(f, "{failure}"),
            Stop::TooLong => f.write_str("the image is too long"),
            Stop::Image(refusal) => {
                let error = LineError::Refused(*refusal);
                write!(f, "{error}")
            }
        }
    }
}

fn main(rt: HostRuntime) {
    if let Err(stop) = list_words(&mut rt.stdin(), &mut rt.stdout()) {
        let _ = println!(rt.stderr(); "image_words: {stop}");
    }
}

// Reads the image, and lists its words.
fn list_words<R: Read, W: Write>(input: &mut R, output: &mut W) -> Result<(), Stop> {
    let mut row = [0u8; IMAGE];
    let mut pool = [0u32; POOL];
    let n = read_all(input, &mut row)?;
    if IMAGE <= n {
        return Err(Stop::TooLong);
    }
    // A pool of this length is not refused.
    let _ = trie_char::fresh(&mut pool);
    let image = front(&row, n);
    match read_image(&mut pool, image) {
        Ok(_) => {
            list(output, image)?;
            Ok(())
        }
        Err(refusal) => Err(Stop::Image(refusal)),
    }
}

// Reads to the end of the input, or until the row is full.
fn read_all<R: Read>(input: &mut R, image: &mut [u8]) -> Result<usize, Failure> {
    let mut n = 0;
    // Kept: (3) a read says how far it came, so no iterator goes over the row.
    while n < image.len() {
        let k = read_some(input, &mut image[n..])?;
        if k == 0 {
            return Ok(n);
        }
        n += k;
    }
    Ok(n)
}

// Writes the words of an image that is right.
fn list<W: Write>(output: &mut W, image: &[u8]) -> Result<(), Failure> {
    let mut line = [0u8; LINE];
    let mut at = 0;
    // Kept: (3) a record says where the next begins.
    while let Some(Record::Word { class, from, to }) = record_at(image, at) {
        let n = write_line(&image[from..to], class, &mut line);
        write_whole(output, front(&line, n))?;
        at = to;
    }
    Ok(())
}
