// The calls on labels.
ghost use Rattle.labelling.specs.Labelling.{LabelAnswers, SkeletonRight};
ghost use Rattle.likeness.specs.Likeness.{LookAlikeAnswers};
ghost use Rattle.packing.specs.Packing.{Packed};
ghost use Rattle.packing.specs.Answers.{outcome_numbers, pair_numbers};

use packing::Pack;

// Whether a word is a label, and how many syllables it has.
#[unsafe(no_mangle)]
pub extern "C" fn jogcairn_label(word: &[u16]) -> u64
    ensures { Packed (LabelAnswers word.now) outcome_numbers result }
{
    labelling::label(word).pack()
}

// Writes the skeleton of a label.
#[unsafe(no_mangle)]
pub extern "C" fn jogcairn_skeleton(word: &[u16], skeleton: &mut [u16]) -> u64
    ensures { Packed (SkeletonRight word.now skeleton.old skeleton.new) outcome_numbers result }
{
    labelling::skeleton(word, skeleton).pack()
}

// Whether two labels look alike.
#[unsafe(no_mangle)]
pub extern "C" fn jogcairn_look_alike(first: &[u16], second: &[u16]) -> u64
    ensures { Packed (LookAlikeAnswers first.now second.now) pair_numbers result }
{
    packing::pack_pair(likeness::look_alike(first, second))
}
