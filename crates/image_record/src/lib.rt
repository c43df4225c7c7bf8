// The record at a place of a word list image.
#![tactic(auto)]

ghost use Rattle.std.specs.Prelude.{◌≡◌, ◌+◌, ◌≤◌, length, take, drop};
ghost use Rattle.image_rules.specs.Records.{value};
ghost use Rattle.image_record.specs.inner.Records.{Says};

// Kind 1, its class and where its word's bytes stand; or kind 0 and its number.
#[derive(Clone, Copy)]
pub enum Record {
    Word {
        class: usize,
        from: usize,
        to: usize,
    },
    Last(usize),
}

// The number of two bytes.
fn two(s: &[u8], at: usize) -> usize
    requires { at + 2 ≤ length s.now }
    ensures value { result ≡ value (take 2 (drop at s.now)) }
    ensures upper_bound { result ≤ 65535 }
{
    usize::from(s[at]) + 256 * usize::from(s[at + 1])
}

// The number of four bytes.
fn four(s: &[u8], at: usize) -> usize
    requires { at + 4 ≤ length s.now }
    ensures value { result ≡ value (take 4 (drop at s.now)) }
    ensures upper_bound { result ≤ 4294967295 }
{
    two(s, at) + 65536 * two(s, at + 2)
}

// The record that starts at a place; nothing where the bytes there are none.
pub fn record_at(image: &[u8], at: usize) -> Option<Record>
    requires { at ≤ length image.now }
    ensures { Says image.now at result }
{
    let left = image.len() - at;
    if left < 4 {
        return None;
    }
    let size = four(image, at);
    if size < 2 || left - 4 < size {
        return None;
    }
    match two(image, at + 4) {
        0 => if size == 6 {
            Some(Record::Last(four(image, at + 6)))
        } else {
            None
        },
        1 => if 5 <= size {
            Some(Record::Word {
                class: two(image, at + 6),
                from: at + 8,
                to: at + 4 + size,
            })
        } else {
            None
        },
        _ => None,
    }
}
