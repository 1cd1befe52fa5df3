// The class of a value, as document 01, "The letters", has them.
ghost use Rattle.std.specs.Prelude.{◌≡◌};
ghost use Rattle.letters.specs.Letters.{kind_of};

#[derive(Clone, Copy, PartialEq, Eq, Debug)]
pub enum Kind {
    Consonant,
    IndependentVowel,
    Medial,
    VowelMark,
    Tone,
    Killer,
    Stacker,
    GreatSa,
    Digit,
    Stop,
    Sign,
    Foreign,
}

// The kind of any value. Neighbours stand in different arms: in one they would be a range, which is tested and not looked up.
pub fn kind_of(x: u16) -> Kind
    ensures { result ≡ kind_of x }
{
    match x {
        0x1000 | 0x1002 | 0x1004 | 0x1006 | 0x1008 | 0x100A | 0x100C | 0x100E => Kind::Consonant,
        0x1001 | 0x1003 | 0x1005 | 0x1007 | 0x1009 | 0x100B | 0x100D | 0x100F => Kind::Consonant,
        0x1010 | 0x1012 | 0x1014 | 0x1016 | 0x1018 | 0x101A | 0x101C | 0x101E => Kind::Consonant,
        0x1011 | 0x1013 | 0x1015 | 0x1017 | 0x1019 | 0x101B | 0x101D | 0x101F => Kind::Consonant,
        0x1020 => Kind::Consonant,
        0x1021 => Kind::Consonant,
        0x1024 | 0x1026 | 0x102A => Kind::IndependentVowel,
        0x1023 | 0x1025 | 0x1027 | 0x1029 => Kind::IndependentVowel,
        0x102C | 0x102E | 0x1030 | 0x1032 | 0x1036 => Kind::VowelMark,
        0x102B | 0x102D | 0x102F | 0x1031 => Kind::VowelMark,
        0x1038 => Kind::Tone,
        0x1037 => Kind::Tone,
        0x1039 => Kind::Stacker,
        0x103A => Kind::Killer,
        0x103C | 0x103E => Kind::Medial,
        0x103B | 0x103D => Kind::Medial,
        0x103F => Kind::GreatSa,
        0x1040 | 0x1042 | 0x1044 | 0x1046 | 0x1048 => Kind::Digit,
        0x1041 | 0x1043 | 0x1045 | 0x1047 | 0x1049 => Kind::Digit,
        0x104A => Kind::Stop,
        0x104B => Kind::Stop,
        0x104C | 0x104E => Kind::Sign,
        0x104D | 0x104F => Kind::Sign,
        _ => Kind::Foreign,
    }
}
