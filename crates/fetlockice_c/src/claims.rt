// Checking a claim.
ghost use Rattle.newmm_claim.specs.Answers.{claim};
ghost use Rattle.host_claims.specs.Calls.{told_claim, ClaimTold};

// Checks ends that are claimed for the plain cut of a text: 1, or 0 and the first token that is
// wrong. Refusals 2 to 5.
#[unsafe(no_mangle)]
pub extern "C" fn fetlockice_check_claim(
    text: &[u32],
    pool: &[u32],
    claimed: &[u32],
    scratch: &mut [u32],
    right: &mut usize,
    token: &mut usize,
    detail: &mut usize,
) -> u32
    ensures { ClaimTold
        (claim text.now pool.now claimed.now scratch.old)
        (told_claim result right.new token.new detail.new)
        scratch.new }
{
    fetlockice::fetlockice_check_claim(text, pool, claimed, scratch, right, token, detail)
}
