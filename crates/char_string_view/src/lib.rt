// A view over the caller's scalars with a start and an end, after `CharString`. A view whose
// numbers don't fit is read as empty: what a view shows is `shown`, and every answer is about that.
#![tactic(auto)]

ghost use Rattle.std.specs.Prelude.{◌≡◌, length};
ghost use Rattle.char_string.specs.Parts.{part_of, fitted, cell_at, char_at, sub_view};
ghost use Rattle.char_string_view.specs.Views.{view_of, shown, shown_at, sub_view_of};

// Kept: (4) a view is asked, never compared or printed.
#[derive(Clone, Copy)]
pub struct CharView<'a> {
    pub text: &'a [u32],
    pub start: usize,
    pub end: usize,
}

impl<'a> CharView<'a> {
    // Any two numbers make a view.
    pub fn new(text: &'a [u32], start: usize, end: usize) -> CharView<'a>
        ensures { result ≡ view_of text.entry start end }
    {
        CharView { text, start, end }
    }

    // The number of characters that the view shows.
    pub fn chars_len(self) -> usize
        ensures { result ≡ length (shown self.entry) }
    {
        char_string::chars_len(self.text, self.start, self.end)
    }

    // The character of the view at an index, if it has one there.
    pub fn get_char_at(self, index: usize) -> Option<u32>
        ensures { result ≡ char_at (shown self.entry) index }
    {
        char_string::get_char_at(self.text, self.start, self.end, index)
    }

    // The view between two positions of this one. A wrong pair gives the empty view at the view's
    // start.
    pub fn sub_view(self, from: usize, to: usize) -> CharView<'a>
        ensures { result ≡ sub_view_of self.entry from to }
    {
        let s = char_string::sub_view(self.text, self.start, self.end, from, to);
        CharView {
            text: self.text,
            start: s.start,
            end: s.end,
        }
    }

    // What the view shows: that part of the caller's text itself, no copy.
    pub fn part(self) -> &'a [u32]
        ensures result_value { result.now ≡ shown self.entry }
        ensures ref_ptr_value { result.ref_ptr ≡ shown_at self.entry }
    {
        char_string::substring(self.text, self.start, self.end)
    }
}

// The view of a view. The functions below make one and ask it. Their parameters are plain, so a
// caller holds no view.
fn sub_view_of<'a>(
    text: &'a [u32],
    start: usize,
    end: usize,
    from: usize,
    to: usize,
) -> CharView<'a>
    ensures { result ≡ sub_view_of (view_of text.entry start end) from to }
{
    CharView::new(text, start, end).sub_view(from, to)
}

// The number of characters of a part of a part.
pub fn sub_chars_len(text: &[u32], start: usize, end: usize, from: usize, to: usize) -> usize
    ensures { result ≡ length (part_of (part_of text.now start end) from to) }
{
    sub_view_of(text, start, end, from, to).chars_len()
}

// The character of a part of a part at an index, if it has one there.
pub fn sub_get_char_at(
    text: &[u32],
    start: usize,
    end: usize,
    from: usize,
    to: usize,
    index: usize,
) -> Option<u32>
    ensures { result ≡ char_at (part_of (part_of text.now start end) from to) index }
{
    sub_view_of(text, start, end, from, to).get_char_at(index)
}

// A part of a part: the caller's cells themselves, no copy.
pub fn sub_part(text: &[u32], start: usize, end: usize, from: usize, to: usize) -> &[u32]
    ensures result_value { result.now ≡ part_of (part_of text.now start end) from to }
    ensures ref_ptr_value { result.ref_ptr ≡ cell_at text.entry.ref_ptr
        (sub_view (fitted (length text.now) start end) from to).start }
{
    sub_view_of(text, start, end, from, to).part()
}
