// A record of an image at a place of a row.
#![tactic(auto)]

ghost use Rattle.std.specs.Prelude.{◌≡◌, ◌++◌, ◌+◌, ◌≤◌, length};
ghost use Rattle.image_rules.specs.Records.{le, record_of, last_record};
ghost use Rattle.image_bytes.specs.inner.Laying.{laid_at};

use image_bytes::{put_bytes, put_four, put_two};

// The record of a word, whose bytes are given. Answers the place behind it.
pub fn put_word(row: &mut [u8], at: usize, class: usize, word: &[u8]) -> usize
    requires { (at + 8) + length word.now ≤ length row.old }
    ensures value { result ≡ (at + 8) + length word.now }
    ensures row_after { row.new ≡
        laid_at at (record_of 1 (le 2 class ++ word.now)) row.old }
{
    put_four(row, at, 4 + word.len());
    put_two(row, at + 4, 1);
    put_two(row, at + 6, class);
    put_bytes(row, at + 8, word);
    at + 8 + word.len()
}

// The last record of an image of n words.
pub fn put_last(row: &mut [u8], at: usize, n: usize)
    requires { at + 10 ≤ length row.old }
    ensures { row.new ≡ laid_at at (last_record n) row.old }
{
    put_four(row, at, 6);
    put_two(row, at + 4, 0);
    put_four(row, at + 6, n);
}
