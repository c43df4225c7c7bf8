// The engine of the second matcher: tries the alternatives of tables that it is lent one after the
// other, item by item.
#![tactic(auto)]

ghost use Rattle.std.specs.Prelude.{◌≡◌, ◌/◌, ◌%◌, ◌≤◌, ◌<◌, length, drop};
ghost use Rattle.lists.specs.Scans.{within};
ghost use Rattle.tcc_rules.specs.Patterns.{holds_at, match, pattern};
ghost use Rattle.tcc_rules.specs.Rules.{alternatives};
ghost use Rattle.tcc_engine.specs.Tables.{class_in};
ghost use Rattle.tcc_engine.specs.inner.Trying.{Classed, Tables, stretch, group_start, tried_at, matched};
ghost use Rattle.tcc_engine.specs.inner.Trying.{found_in, told_at};

// The classes of characters, numbered from 00 to 1C, with three ranges each: lo and hi, four
// hexadecimal digits each, lo above hi for no range.
pub type Classes = [u32; 87];

// The items: the class, then 1 if the item is optional, then 1 if it stands in the group, which is
// optional as a whole; two, one and one hexadecimal digits.
pub type Items = [u32; 195];

// Where the items of alternatives 1 to 29 start, and where the last ones end.
pub type Starts = [u32; 30];

// How many alternatives there are, and how many stand before the two that look ahead.
pub const ALTERNATIVES: usize = 29;

pub const AHEAD: usize = 27;

// A cluster: the number of the alternative that won, 0 for none, and where the cluster ends.
#[derive(Clone, Copy, Debug, PartialEq, Eq)]
pub struct Won {
    pub number: u32,
    pub end: usize,
}

// The tables with which clusters are matched: read back, they are the alternatives.
// Kept: (4) an engine is asked, never compared or printed.
#[derive(Clone, Copy)]
pub struct Engine<'a> {
    pub classes: &'a Classes,
    pub items: &'a Items,
    pub starts: &'a Starts,
    ghost right: { Tables classes.now items.now starts.now },
}

// Whether a range, lo and hi in one number, has the character.
fn in_range(range: u32, x: u32) -> bool
    ensures { result ≡ within (range / 65536) (range % 65536) x }
{
    range / 65536 <= x && x <= range % 65536
}

impl<'a> Engine<'a> {
    // Whether a character of the class stands at p.
    fn in_class(self, number: usize, text: &[u32], p: usize) -> bool
        requires { number < 29 }
        ensures { result ≡ holds_at (class_in self.entry.classes.now number) text.now p }
    {
        if text.len() <= p {
            return false;
        }
        let x = text[p];
        let at = 3 * number;
        if in_range(self.classes[at], x) {
            return true;
        }
        if in_range(self.classes[at + 1], x) {
            return true;
        }
        in_range(self.classes[at + 2], x)
    }

    // The match of items i to g and then of the group, items g to e, at p. An optional item is
    // tried first with and then without a character, and so is the group.
    fn match_items(self, i: usize, g: usize, e: usize, text: &[u32], p: usize) -> Option<usize>
        requires { (i ≤ g) × (g ≤ e) × (e ≤ 195) }
        ensures { result ≡ matched (match
            (stretch self.entry.classes.now self.entry.items.now i g e) text.now p) }
    {
        if i == g {
            if g == e {
                return Some(p);
            }
            let group = self.match_items(g, e, e, text, p);
            return group.or(Some(p));
        }
        let item = self.items[i];
        let here = self.in_class((item / 256) as usize, text, p);
        if item / 16 % 16 == 0 {
            if !here {
                return None;
            }
            return self.match_items(i + 1, g, e, text, p + 1);
        }
        if !here {
            return self.match_items(i + 1, g, e, text, p);
        }
        let with = self.match_items(i + 1, g, e, text, p + 1);
        let Some(_) = with else {
            return self.match_items(i + 1, g, e, text, p);
        };
        with
    }

    // Where the group of items a to e starts: at the first that stands in it, at e where none does.
    fn group_start(self, a: usize, e: usize) -> usize
        requires { (a ≤ e) × (e ≤ 195) }
        ensures { result ≡ group_start self.entry.items.now a e }
    {
        let items = self.items;
        a + items[a..e]
            .iter()
            .take_while(|item| **item % 16 == 0)
            .count()
    }

    // The match of the alternative that stands behind the first k.
    fn match_alternative(self, k: usize, text: &[u32], p: usize) -> Option<usize>
        requires k_bound { k < 29 }
        ensures { result ≡ matched (match
            (pattern (tried_at self.entry.classes.now self.entry.items.now self.entry.starts.now k)) text.now p) }
    {
        let a = self.starts[k] as usize;
        let e = self.starts[k + 1] as usize;
        let g = self.group_start(a, e);
        self.match_items(a, g, e, text, p)
    }

    // The first of the alternatives behind the first `past` that matches at p.
    fn first_behind(self, past: usize, text: &[u32], p: usize) -> Option<Won>
        ensures { result ≡ found_in (drop past alternatives) text.now p }
    {
        for k in past..ALTERNATIVES {
            if let Some(end) = self.match_alternative(k, text, p) {
                return Some(Won {
                    number: k as u32 + 1,
                    end,
                });
            }
        }
        None
    }

    // The cluster that starts at p. It is one character shorter where the matched characters also
    // match alternative 28 or 29.
    pub fn next_cluster(self, text: &[u32], p: usize) -> Won
        requires p_in_bounds { p < length text.now }
        ensures { result ≡ told_at text.now p }
    {
        let found = self.first_behind(0, text, p);
        let Some(won) = found else {
            return Won {
                number: 0,
                end: p + 1,
            };
        };
        let ahead = self.first_behind(AHEAD, &text[..won.end], p);
        let Some(_) = ahead else {
            return won;
        };
        Won {
            number: won.number,
            end: won.end - 1,
        }
    }
}
