// Test vectors: each line of input is an operation with its inputs, parted by tabs; each line of
// output is an answer.
//
// Each function that writes is passed the runtime first.
//
// The frame.
//   Answers                          what a program does with a line
//   replay(input, buffer, answers)   reads an input into buffer and answers each of its lines
//   replay_lines(text, answers)      answers each line of a text
//
// Reading. Each function takes any bytes; what cannot be read writes a `?`, so that no expected
// line fits the answer.
//   read_full(input, buffer)         reads from a reader until buffer is full or no more comes
//   parts_of(text, mark) -> Parts    the parts of a text between its marks: lines, words, steps
//   cut_at(text, mark)               what stands before the first mark, and what behind it
//   field(line, k) -> &[u8]          the k-th field of a line from 0 on; empty if there is none
//   opened(text) -> (u8, &[u8])      the first byte, 0 if there is none, and the text without it
//   number(text) -> usize            a decimal number; `*` and what is larger give the largest
//   lent(text, most) -> usize        the length of a lent row: the number, `most` if that is less
//   read_cells(text, row) -> usize   `E01.20*3`, `-` for none, to row's front; how many cells
//   read_bytes(text, row) -> usize   `e0b881*2.61`, `-` for none, to row's front; how many bytes
//   first(row, n) -> &[T]            the first n cells of row, or all of it where there are fewer
//
// Writing: values with a `Display`, whose pieces are written one by one.
//   Passing(rt)                      a runtime that passes over a write that fails
//   Gathered(value)                  the pieces of a value together
//   Joined(row, mark)                in decimal with the mark between, `-` for none, gathered
//   Each(row, mark)                  the same, not gathered
//   Pairs(row, mark)                 by two with a colon, with the mark between, `-` for none
//   Cells(row)                       as read_cells reads them, four or more equal cells as a run
//   Bytes(row)                       in hexadecimal
//   Refused(refusal)                 `! number detail`
//   Told(result)                     a number, or `!number.detail`
#![tactic(auto)]

mod input;
mod output;
mod parse;

pub use input::{Answers, Parts, cut_at, field, opened, parts_of, read_full, replay, replay_lines};
pub use output::{Bytes, Cells, Each, Gathered, Joined, Pairs, Passing, Refused, Told, first};
pub use parse::{lent, number, read_bytes, read_cells};
