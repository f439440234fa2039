//! Where two texts differ. O(the bytes before).
ghost use Rattle.std.specs.Prelude.{◌≡◌, MatchOption};
ghost use Rattle.gv_verify.specs.Differing.{DifferAt};

/// The first place at which the texts differ; None exactly where they are the same.
#[tactic(auto, using(crate::proofs::DifferLemmas::differ_here, crate::proofs::DifferLemmas::differ_longer, crate::proofs::DifferLemmas::differ_shorter, crate::proofs::DifferLemmas::all_same, crate::proofs::DifferLemmas::agree_more))]
pub(crate) fn first_difference(one: &[u8], two: &[u8]) -> Option<usize>
    ensures { MatchOption result (one.now ≡ two.now) (DifferAt one.now two.now) }
{
    let mut n = 0;
    while n < one.len() {
        if n >= two.len() {
            return Some(n);
        }
        if one[n] != two[n] {
            return Some(n);
        }
        n += 1;
    }
    if n < two.len() {
        return Some(n);
    }
    None
}
