// Whether two labels look alike: whether their skeletons are the same.
#![tactic(auto)]

ghost use Rattle.refusals.specs.Pair.{pair_outcome_by};
ghost use Rattle.likeness.specs.Likeness.{alike_number, LookAlikeAnswers};

use labelling::skeleton;
use refusals::PairRefusal;
use skeletons::LIMIT;

// Whether two labels look alike, or which of the words is no label and why.
#[tactic(auto, using(crate::proofs::Alike::given_fits, crate::proofs::Alike::given_taken))]
pub fn look_alike(first: &[u16], second: &[u16]) -> Result<bool, PairRefusal>
    ensures { LookAlikeAnswers first.now second.now (pair_outcome_by alike_number result) }
{
    let mut one = [0; LIMIT];
    let one_count = skeleton(first, &mut one).map_err(PairRefusal::First)?;
    let mut other = [0; LIMIT];
    let other_count = skeleton(second, &mut other).map_err(PairRefusal::Second)?;
    Ok(one[..one_count] == other[..other_count])
}
