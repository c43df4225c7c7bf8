// An answer as a host is told it: the refusal's number as the result, the other numbers behind
// references.
#![tactic(auto)]

ghost use Rattle.std.specs.Prelude.{◌≡◌};
ghost use Rattle.host_telling.specs.Told.{told, told_cut, tells, tells_cut};

// Kept: (5) count, edges and detail are places that C lends one by one: a struct of references would
// be made in each call and taken apart in the next.
use newmm_rules::Ends;
use refusal::Refusal;

// Tells an answer that is one number.
pub fn tell(a: Result<usize, Refusal>, count: &mut usize, detail: &mut usize) -> u32
    ensures { told result count.new detail.new ≡ tells a }
{
    match a {
        Ok(n) => {
            *count = n;
            *detail = 0;
            0
        }
        Err(r) => {
            *count = 0;
            *detail = r.detail();
            u32::from(r.number())
        }
    }
}

// Tells the answer of a cut.
pub fn tell_cut(
    a: Result<Ends, Refusal>,
    count: &mut usize,
    edges: &mut usize,
    detail: &mut usize,
) -> u32
    ensures { told_cut result count.new edges.new detail.new ≡ tells_cut a }
{
    *edges = a.map_or(0, |cut| cut.edges);
    tell(a.map(|cut| cut.ends), count, detail)
}
