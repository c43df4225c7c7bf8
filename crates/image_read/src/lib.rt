// One pass over a word list image: whether it is as said, and how many nodes its words need.
#![tactic(auto)]

ghost use Rattle.std.specs.Prelude.{ℕ, ◌≤◌, ◌<◌, get_or};
ghost use Rattle.image_read.specs.inner.Surveys.{Raises, Surveys};

use image_record::{Record, record_at};
use image_word::WordReader;

// How many words an image has, how many nodes they need beside the root, and how many of these
// stand on each level.
#[derive(Clone, Copy)]
pub struct Surveyed {
    pub words: usize,
    pub nodes: usize,
    pub levels: [usize; 257],
}

// One node more on each level from l, exclusive, to n.
fn raise(levels: &mut [usize; 257], l: usize, n: usize)
    requires n_bound { (n ≤ 255) × (l ≤ n) }
    requires by_index { (d : ℕ) → get_or levels.old d 0 < 18446744073709551615 }
    ensures { Raises levels.old levels.new l n }
{
    for d in l..n {
        levels[d + 1] += 1;
    }
}

// Reads the image record by record. Refused with the offset of the first record that breaks a
// rule.
pub fn survey(image: &[u8]) -> Result<Surveyed, usize>
    ensures { Surveys image.now result }
{
    let mut reader = WordReader::new();
    let mut levels = [0; 257];
    let mut words = 0;
    let mut nodes = 0;
    let mut at = 0;
    // Kept: (3) each record says how long it is, so no iterator is plainer.
    while at < image.len() {
        match record_at(image, at).ok_or(at)? {
            Record::Last(count) => {
                if count != words {
                    return Err(at);
                }
                if at + 10 != image.len() {
                    return Err(at + 10);
                }
                return Ok(Surveyed {
                    words,
                    nodes,
                    levels,
                });
            }
            Record::Word { class: _, from, to } => {
                let taken = reader.take_next(&image[from..to]).ok_or(at)?;
                raise(&mut levels, taken.shared, taken.size);
                nodes += taken.size - taken.shared;
                words += 1;
                at = to;
            }
        }
    }
    Err(at)
}
