// Checking a claim, as hosts are told it.
#![tactic(auto)]

ghost use Rattle.std.specs.Prelude.{◌≡◌};
ghost use Rattle.newmm_claim.specs.Answers.{claim};
ghost use Rattle.host_claims.specs.Calls.{told_claim, tells_claim, ClaimTold};

use host_telling::tell;
use newmm_claim::Verdict;
use refusal::Refusal;

// Tells the answer of the check of a claim.
fn tell_claim(
    a: Result<Verdict, Refusal>,
    right: &mut usize,
    token: &mut usize,
    detail: &mut usize,
) -> u32
    ensures { told_claim result right.new token.new detail.new ≡ tells_claim a }
{
    *right = usize::from(matches!(a, Ok(Verdict::Right)));
    let wrong = a.map(|verdict| match verdict {
        Verdict::Right => 0,
        Verdict::Wrong(k) => k,
    });
    tell(wrong, token, detail)
}

// Checks ends that are claimed for the plain cut of a text: 1, or 0 and the first token that is
// wrong. Refusals 2 to 5.
pub fn check_claim(
    text: &[u32],
    pool: &[u32],
    claimed: &[u32],
    scratch: &mut [u32],
    right: &mut usize,
    token: &mut usize,
    detail: &mut usize,
) -> u32
    ensures { ClaimTold
        (claim text.now pool.now claimed.now scratch.old)
        (told_claim result right.new token.new detail.new)
        scratch.new }
{
    let found = newmm_claim::check_claim(text, pool, claimed, scratch);
    tell_claim(found, right, token, detail)
}
