// Words whose first heads weigh differently: their order is told before a syllable is weighed.
ghost use Rattle.std.specs.Prelude.{◌≡◌};
ghost use Rattle.collation.specs.Comparison.{first_head, HeadsTell};

use letters::weight::head_weight;
use recogniser::walk::is_row;
use std::cmp::Ordering;

// The weight of a word's first value as a head; 0 where it is none, and for no values.
fn first_head(word: &[u16]) -> u8
    ensures { result ≡ first_head word.now }
{
    word.first().map_or(0, |first| head_weight(*first))
}

// The order of two rows of syllables whose first heads weigh differently.
#[tactic(auto, using(crate::proofs::Apart::heads_tell))]
pub(crate) fn order_heads(first: &[u16], second: &[u16]) -> Option<Ordering>
    ensures { HeadsTell first.now second.now result }
{
    let order = first_head(first).cmp(&first_head(second));
    if order.is_ne() && is_row(first) && is_row(second) {
        return Some(order);
    }
    None
}
