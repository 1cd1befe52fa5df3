// Foreign values: those that document 01, "The letters", does not admit.
ghost use Rattle.std.specs.Prelude.{◌≡◌, ◌≤◌, length};
ghost use Rattle.recogniser.specs.Concluded.{is_foreign, FindsForeign};

use letters::kind::{Kind, kind_of};

fn is_foreign(x: u16) -> bool
    ensures { result ≡ is_foreign x }
{
    matches!(kind_of(x), Kind::Foreign)
}

// The place of the first foreign value from `from` on.
pub(crate) fn foreign_from(word: &[u16], from: usize) -> Option<usize>
    requires { from ≤ length word.now }
    ensures { FindsForeign word.now from result }
{
    (from..word.len()).find(|at| is_foreign(word[*at]))
}

// The place of the first foreign value.
pub fn first_foreign(word: &[u16]) -> Option<usize>
    ensures { FindsForeign word.now 0 result }
{
    foreign_from(word, 0)
}
