// What a value says by itself: its class, of which all do the same to every state, and whether it begins a syllable.
ghost use Rattle.std.specs.Prelude.{◌≡◌};
ghost use Rattle.transitions.specs.Tables.{begins_by, class_of};

// Neighbours stand in different arms, so that the compiler makes one table of bytes; 3 is the class of the foreign values,
// 4 of an I and 104E, which carry a final, and 23 of the heads that carry nothing.
pub fn class_of(x: u16) -> u8
    ensures { result ≡ class_of x }
{
    match x {
        0x1000 | 0x1002 | 0x1006 | 0x1008 | 0x100A | 0x100C | 0x100E => 0,
        0x1001 | 0x1003 | 0x1005 | 0x1007 | 0x1009 | 0x100B | 0x100D | 0x100F => 0,
        0x1010 | 0x1012 | 0x1014 | 0x1016 | 0x1018 | 0x101A | 0x101C | 0x101E => 0,
        0x1011 | 0x1013 | 0x1015 | 0x1017 | 0x1019 | 0x101B | 0x101D | 0x101F => 0,
        0x1020 => 0,
        0x1004 => 1,
        0x1021 => 2,
        0x1023 | 0x1025 | 0x1027 | 0x1029 => 4,
        0x1024 | 0x1026 | 0x102A => 4,
        0x102B => 5,
        0x102C => 6,
        0x102D => 7,
        0x102E => 8,
        0x102F => 9,
        0x1030 => 10,
        0x1031 => 11,
        0x1032 => 12,
        0x1036 => 13,
        0x1037 => 14,
        0x1038 => 15,
        0x1039 => 16,
        0x103A => 17,
        0x103B => 18,
        0x103C => 19,
        0x103D => 20,
        0x103E => 21,
        0x103F => 22,
        0x1040 | 0x1042 | 0x1044 | 0x1046 | 0x1048 | 0x104A | 0x104C => 23,
        0x1041 | 0x1043 | 0x1045 | 0x1047 | 0x1049 | 0x104B | 0x104D | 0x104F => 23,
        0x104E => 4,
        _ => 3,
    }
}

// Whether a value that is read begins a syllable: all but the marks do, whatever is read before them. It is asked of the value and not of the state, so
// that the machine finds out early where it foretold wrongly.
pub fn begins(x: u16) -> bool
    ensures { result ≡ begins_by x }
{
    x < 0x102B || 0x103E < x
}
