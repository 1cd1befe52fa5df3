// The comparison of two words.
ghost use Rattle.std.specs.Prelude.{◌≡◌, ◌≤◌, length};
ghost use Rattle.formula.specs.Limits.{limit};
ghost use Rattle.storage.specs.Stored.{stored_form};
ghost use Rattle.weighing.specs.Order.{order_values};
ghost use Rattle.collation.specs.Comparison.{CompareRight};

use crate::heads::order_heads;
use crate::weigh::weigh;
use formula::Word;
use refusals::PairRefusal;
use std::cmp::Ordering;

// The order of the stored forms of two words by their code values.
#[tactic(auto, using(formula::proofs::Held::held_front, weighing::proofs::Library::lists_compared))]
fn order_forms(first: &[u16], second: &[u16]) -> Ordering
    requires { (length first.now ≤ limit) × (length second.now ≤ limit) }
    ensures { result ≡ order_values (stored_form first.now) (stored_form second.now) }
{
    let one = storage::stored(first);
    let other = storage::stored(second);
    one.values[..one.count].cmp(&other.values[..other.count])
}

// Compares two words by their weights, whatever their first heads are.
#[tactic(auto, using(crate::proofs::Weighing::weighed_limit, crate::proofs::Weighing::weighed_used, crate::proofs::Weighing::weighed_taken))]
fn compare_keys(first: &[u16], second: &[u16]) -> Result<Ordering, PairRefusal>
    ensures { CompareRight first.now second.now result }
{
    let mut one = [0; Word::KEY];
    let one_count = weigh(first, &mut one).map_err(PairRefusal::First)?;
    let mut other = [0; Word::KEY];
    let other_count = weigh(second, &mut other).map_err(PairRefusal::Second)?;
    let order = one[..Word::WEIGHTS * one_count].cmp(&other[..Word::WEIGHTS * other_count]);
    Ok(order.then_with(|| order_forms(first, second)))
}

// How the first word stands to the second, or which of them is refused and why; of words of any values and any length.
#[tactic(auto, using(crate::proofs::Comparing::order_told))]
pub fn compare(first: &[u16], second: &[u16]) -> Result<Ordering, PairRefusal>
    ensures { CompareRight first.now second.now result }
{
    if let Some(order) = order_heads(first, second) {
        return Ok(order);
    }
    compare_keys(first, second)
}
