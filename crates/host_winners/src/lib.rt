// Clusters and the alternatives that won them, as hosts are told them.
#![tactic(auto)]

ghost use Rattle.host_telling.specs.Told.{told};
ghost use Rattle.host_winners.specs.Calls.{WinnersTold};

use host_telling::tell;
use tcc_tables::tcc_winners;

// The ends of a text's clusters, in characters, at the front of ends, and the numbers of the
// alternatives that won them at the front of won; accepted with their number. Refusals 2, 3, 6.
pub fn winners(
    text: &[u32],
    ends: &mut [u32],
    won: &mut [u32],
    count: &mut usize,
    detail: &mut usize,
) -> u32
    ensures { WinnersTold text.now ends.old won.old
        (told result count.new detail.new) ends.new won.new }
{
    let clusters = tcc_winners(text, ends, won);
    tell(clusters, count, detail)
}
