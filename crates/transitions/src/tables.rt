// What a value does to the state of a reading, to the number of syllables and to the last of them, by tables. Each arm has one literal and
// constants, which the compiler makes tables in read-only memory; an array constant would be stored at each use.
ghost use Rattle.std.specs.Prelude.{◌≡◌, ◌<◌};
ghost use Rattle.transitions.specs.Tables.{state_limit, rules_in, rules_of, chosen_by, next_by, gain_by};

use crate::classes::class_of;

// What a value does at each state. Three bits a state, the first lowest, pick one of at most seven outcomes, or 0 for a refusal. An outcome has a
// byte of `outcomes`, five bits for the state after it and above them what becomes of the count (0 one fewer, 1 as many, 2 one more), and a byte
// of `amounts`, what it adds to the packed syllable; the lowest bytes are the refusal's and the bit from which on is added.
#[derive(Clone, Copy)]
pub struct Rules {
    pub picks: u64,
    pub outcomes: u64,
    pub amounts: u64,
}

impl Rules {
    // The byte of a refusal.
    pub const REFUSED: u8 = 96;
}

// The rules of a class.
fn rules_in(class: u8) -> Rules
    ensures { result ≡ rules_in class }
{
    match class {
        0 => Rules {
            picks: 0o33333333333321122,
            outcomes: 0x47454660,
            amounts: 0x0,
        },
        1 => Rules {
            picks: 0o33333333333321122,
            outcomes: 0x48454660,
            amounts: 0x0,
        },
        2 => Rules {
            picks: 0o11111111111101111,
            outcomes: 0x4560,
            amounts: 0x0,
        },
        3 => Rules {
            picks: 0o0,
            outcomes: 0x60,
            amounts: 0x0,
        },
        4 => Rules {
            picks: 0o11111111111101111,
            outcomes: 0x5060,
            amounts: 0x0,
        },
        5 => Rules {
            picks: 0o2111111100000,
            outcomes: 0x2D3060,
            amounts: 0x121118,
        },
        6 => Rules {
            picks: 0o2111111100000,
            outcomes: 0x2D3060,
            amounts: 0x20118,
        },
        7 => Rules {
            picks: 0o111111100000,
            outcomes: 0x2E60,
            amounts: 0x218,
        },
        8 => Rules {
            picks: 0o111111100000,
            outcomes: 0x3060,
            amounts: 0x318,
        },
        9 => Rules {
            picks: 0o200111111100000,
            outcomes: 0x302F60,
            amounts: 0x90418,
        },
        10 => Rules {
            picks: 0o111111100000,
            outcomes: 0x3060,
            amounts: 0x518,
        },
        11 => Rules {
            picks: 0o111111100000,
            outcomes: 0x2C60,
            amounts: 0x618,
        },
        12 => Rules {
            picks: 0o111111100000,
            outcomes: 0x3060,
            amounts: 0x718,
        },
        13 => Rules {
            picks: 0o2000111111100000,
            outcomes: 0x303060,
            amounts: 0x80A18,
        },
        14 => Rules {
            picks: 0o11111111111101110,
            outcomes: 0x2060,
            amounts: 0x120,
        },
        15 => Rules {
            picks: 0o11111111111101110,
            outcomes: 0x2060,
            amounts: 0x220,
        },
        16 => Rules {
            picks: 0o20001000,
            outcomes: 0x42460,
            amounts: 0x20116,
        },
        17 => Rules {
            picks: 0o40000321000000,
            outcomes: 0x3003020160,
            amounts: 0x401010016,
        },
        18 => Rules {
            picks: 0o111100000,
            outcomes: 0x2960,
            amounts: 0x108,
        },
        19 => Rules {
            picks: 0o111100000,
            outcomes: 0x2960,
            amounts: 0x208,
        },
        20 => Rules {
            picks: 0o1111100000,
            outcomes: 0x2A60,
            amounts: 0x408,
        },
        21 => Rules {
            picks: 0o11111100000,
            outcomes: 0x2B60,
            amounts: 0x808,
        },
        22 => Rules {
            picks: 0o11111111111100000,
            outcomes: 0x4560,
            amounts: 0x0,
        },
        23 => Rules {
            picks: 0o11111111111101111,
            outcomes: 0x4060,
            amounts: 0x0,
        },
        _ => Rules {
            picks: 0,
            outcomes: 96,
            amounts: 0,
        },
    }
}

// The rules of a value.
pub fn rules_of(x: u16) -> Rules
    ensures { result ≡ rules_of x }
{
    rules_in(class_of(x))
}

// The outcome that a state picks. The rules are looked up apart from the state, so that no look-up waits for the one before it.
fn chosen(state: usize, rules: Rules) -> u64
    requires { state < state_limit }
    ensures { (result ≡ chosen_by state rules) × (result < 8) }
{
    (rules.picks >> (3 * state)) % 8
}

// The byte of the outcome at a state: the state after it and what becomes of the count; 96 for a refusal.
pub fn next(state: usize, rules: Rules) -> u8
    requires { state < state_limit }
    ensures { result ≡ next_by state rules }
{
    let outcome = chosen(state, rules);
    ((rules.outcomes >> (8 * outcome)) % 256) as u8
}

// What the outcome at a state adds to the packed syllable.
pub fn gain(state: usize, rules: Rules) -> u64
    requires { state < state_limit }
    ensures { result ≡ gain_by state rules }
{
    let outcome = chosen(state, rules);
    ((rules.amounts >> (8 * outcome)) % 256) << (rules.amounts % 64)
}
