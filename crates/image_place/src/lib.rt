// Puts the words of an image that is as said into a pool.
#![tactic(auto)]

ghost use Rattle.std.specs.Prelude.{◌≡◌};
ghost use Rattle.trie_pool.specs.Cells.{used};
ghost use Rattle.trie_leaf.specs.inner.Planting.{Beside};
ghost use Rattle.image_place.specs.inner.Placing.{Opens, Placed};

use image_record::{Record, record_at};
use image_word::WordReader;
use trie_build::append;

// Puts in the words, record by record: next[d] is the first free node of level d.
pub fn place(p: &mut [u32], image: &[u8], next: &mut [usize; 257])
    requires { Opens image.now p.old next.old }
    ensures placed { Placed image.now p.new }
    ensures beside { Beside p.old p.new }
    ensures used_unchanged { used p.new ≡ used p.old }
{
    let mut reader = WordReader::new();
    let mut at = 0;
    // Kept: (3) each record says how long it is, so no iterator is plainer.
    while at < image.len() {
        let Some(record) = record_at(image, at) else {
            return;
        };
        let Record::Word { class, from, to } = record else {
            return;
        };
        let Some(taken) = reader.take_next(&image[from..to]) else {
            return;
        };
        append(
            p,
            next,
            &reader.last[..taken.size],
            taken.shared,
            (class + 1) as u32,
        );
        at = to;
    }
}
