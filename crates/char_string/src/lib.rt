// Sub-texts, after `CharString::substring`: parts of the caller's text, and views as a text with a
// start and an end.
#![tactic(auto)]

ghost use Rattle.std.specs.Prelude.{◌≡◌, length};
ghost use Rattle.char_string.specs.Parts.{right_pair, fitted, part_of, cell_at, char_at, sub_view};

// A part of a text: from start up to, and without, end.
#[derive(Clone, Copy, Debug, PartialEq, Eq)]
pub struct Span {
    pub start: usize,
    pub end: usize,
}

// Whether start and end are a right pair of positions of the text.
pub fn is_substring(text: &[u32], start: usize, end: usize) -> bool
    ensures { result ≡ right_pair (length text.now) start end }
{
    start <= end && end <= text.len()
}

// The pair itself where it is right, and else the empty part at the text's start.
pub fn fit(text: &[u32], start: usize, end: usize) -> Span
    ensures { result ≡ fitted (length text.now) start end }
{
    if is_substring(text, start, end) {
        return Span { start, end };
    }
    Span { start: 0, end: 0 }
}

// The part of the caller's text between the two positions: the cells themselves, no copy. A wrong
// pair gives the empty part at the text's start. It is also what a view with that start and end
// shows.
pub fn substring(text: &[u32], start: usize, end: usize) -> &[u32]
    ensures result_value { result.now ≡ part_of text.now start end }
    ensures ref_ptr_value { result.ref_ptr ≡ cell_at text.entry.ref_ptr (fitted (length text.now) start end).start }
{
    let s = fit(text, start, end);
    let a = s.start;
    let e = s.end;
    &text[a..e]
}

// The number of characters that a view shows.
pub fn chars_len(text: &[u32], start: usize, end: usize) -> usize
    ensures { result ≡ length (part_of text.now start end) }
{
    let shown = substring(text, start, end);
    shown.len()
}

// The character of a view at an index, if it has one there.
pub fn get_char_at(text: &[u32], start: usize, end: usize, index: usize) -> Option<u32>
    ensures { result ≡ char_at (part_of text.now start end) index }
{
    let view = substring(text, start, end);
    view.get(index).copied()
}

// The view of a view between two of its positions, as positions of the text. A wrong pair gives the
// empty view at the view's start.
pub fn sub_view(text: &[u32], start: usize, end: usize, from: usize, to: usize) -> Span
    ensures { result ≡ sub_view (fitted (length text.now) start end) from to }
{
    let v = fit(text, start, end);
    let view = substring(text, start, end);
    let s = fit(view, from, to);
    Span {
        start: v.start + s.start,
        end: v.start + s.end,
    }
}
