// The answers of views that are held in a struct.
ghost use Rattle.std.specs.Prelude.{◌≤◌, length};

use crate::{Rows, count_up, shown, tell_part};
use char_string_view::{sub_chars_len, sub_get_char_at, sub_part};
use std::io;
use test_lines::{Cells, field, lent, number};

impl Rows<'_> {
    // view_part n, start, end => the answer of part, by the sub-view of the view of the whole text
    pub(crate) fn view_part(&mut self, rt: &impl Print, line: &[u8]) -> io::Result<()> {
        count_up(self.cells);
        let n = lent(rt, field(line, 1), self.cells.len());
        let start = number(rt, field(line, 2));
        let end = number(rt, field(line, 3));
        let text = &self.cells[..n];
        tell_part(rt, text, start, end, sub_part(text, 0, n, start, end))
    }

    // sub_view n, start, end, from, to, index => ok length, character at index or none, and cells of
    //   the view's sub-view
    pub(crate) fn sub_view(&mut self, rt: &impl Print, line: &[u8]) -> io::Result<()> {
        count_up(self.cells);
        let n = lent(rt, field(line, 1), self.cells.len());
        let start = number(rt, field(line, 2));
        let end = number(rt, field(line, 3));
        let from = number(rt, field(line, 4));
        let to = number(rt, field(line, 5));
        let index = number(rt, field(line, 6));
        let text = &self.cells[..n];
        let count = sub_chars_len(text, start, end, from, to);
        let found = sub_get_char_at(text, start, end, from, to, index);
        let part = sub_part(text, start, end, from, to);
        print!(rt; "ok {count} {} {}", shown(found), Cells(part))
    }
}
