// Cutting a text into words with one record for each token, in a lent row of records.
#![tactic(auto)]

ghost use Rattle.std.specs.Prelude.{◌≡◌, ◌++◌, ◌≤◌, length, replicate, drop};
ghost use Rattle.newmm_records.specs.Calls.{records_call, Records};
ghost use Rattle.newmm_records.specs.inner.Cells.{records as records_in};

use newmm_many_answers::ends_told;
use newmm_reasons_answers::REASONS;
use newmm_rules::{Ends, Mode};
use newmm_told::tell;
use refusal::Refusal;

// A token's end and its reason. Two cells without padding.
#[repr(C)]
#[derive(Clone, Copy)]
pub struct Record {
    pub end: u32,
    pub reason: u32,
}

// Kept: (6) one number says how much of two rows is taken, in place of two slices at the call.
// Takes the first n told cells out of their row, which is 0 there then, into records.
fn fill(records: &mut [Record], told: &mut [u32], n: usize)
    requires { (n ≤ length records.old) × (n ≤ length told.old) }
    ensures { (records.new ≡ records_in told.old n ++ drop n records.old)
        × (told.new ≡ replicate n 0 ++ drop n told.old) }
{
    for i in 0..n {
        let c = told[i];
        records[i] = Record {
            end: c / REASONS,
            reason: c % REASONS,
        };
        told[i] = 0;
    }
}

// Cuts a text by the words of a pool, in a mode: a record for each token, its end and its reason,
// at the front of the row. Answers the number of tokens and the number of edges recorded in the
// whole call. Refusals 2 to 6; 6 counts records.
pub fn cut_records(
    text: &[u32],
    pool: &[u32],
    records: &mut [Record],
    scratch: &mut [u32],
    mode: Mode,
) -> Result<Ends, Refusal>
    ensures { Records
        (records_call text.now pool.now records.old scratch.old mode)
        result records.new scratch.new }
{
    let told = tell(text, pool, scratch, records.len(), mode);
    let k = ends_told(told);
    fill(records, scratch, k);
    told
}
