// Writing a map.
ghost use Rattle.std.specs.Prelude.{◌≡◌, ◌<◌, length, IfSome};
ghost use Rattle.std.specs.Option.{unwrap_or};
ghost use Rattle.break_map_rules.specs.Ends.{first_wrong};
ghost use Rattle.break_map_rules.specs.Answers.{map_answer, map_after};

use crate::sizes::check_size;
use break_map_cells::write_bits;
use refusal::Refusal;

// The index of the first end that is 0, over n or not above the end before it.
fn first_wrong(n: usize, ends: &[u32]) -> Option<usize>
    ensures index { unwrap_or result (length ends.now) ≡ first_wrong n ends.now }
    ensures within { IfSome result (λ i. i < length ends.now) }
{
    let mut before = 0;
    for (i, cell) in ends.iter().enumerate() {
        let end = *cell as usize;
        if end <= before || n < end {
            return Some(i);
        }
        before = end;
    }
    None
}

// Writes the map of the ends of a text of n characters; accepted with the cells that it takes.
// Refusals 2, 6, 10.
pub fn break_map(n: usize, ends: &[u32], map: &mut [u64]) -> Result<usize, Refusal>
    ensures value { result ≡ map_answer n ends.now (length map.old) }
    ensures map_after { map.new ≡ map_after n ends.now map.old }
{
    let used = check_size(n, map.len())?;
    if let Some(wrong) = first_wrong(n, ends) {
        return Err(Refusal::WrongPosition(wrong));
    }
    write_bits(&mut map[..used], ends);
    Ok(used)
}
