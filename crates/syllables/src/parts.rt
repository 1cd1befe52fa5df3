// The parts of a packed syllable.
ghost use Rattle.std.specs.Prelude.{◌≡◌, ◌/◌, ◌%◌, ◌<◌, ◌≤◌};
ghost use Rattle.syllables.specs.Parts.{head_part, medial_part, final_part, link_part, vowel_part, tall_part, tone_part, second_final_part};

// The part that counts by the unit, one of so many.
fn part(packed: u64, unit: u64, many: u64) -> u8
    requires { (0 < unit) × (0 < many) × (many ≤ 256) }
    ensures { result ≡ packed / unit % many }
{
    // A cast: `try_from` is no plainer, since it would want an arm for a part that is too large, which none is.
    (packed / unit % many) as u8
}

// The head minus 1000.
pub fn head(packed: u64) -> u8
    ensures { result ≡ head_part packed }
{
    part(packed, 1, 0x100)
}

// The set of medials: Y 1, R 2, W 4, H 8.
pub fn medials(packed: u64) -> u8
    ensures { result ≡ medial_part packed }
{
    part(packed, 0x100, 0x10)
}

// The number of the final's letter; 0 where there is none.
pub fn letter(packed: u64) -> u8
    ensures { result ≡ final_part packed }
{
    part(packed, 0x10000, 0x40)
}

pub fn link(packed: u64) -> u8
    ensures { result ≡ link_part packed }
{
    part(packed, 0x400000, 4)
}

// The weight of the vowel.
pub fn vowel(packed: u64) -> u8
    ensures { result ≡ vowel_part packed }
{
    part(packed, 0x1000000, 0x10)
}

// 1 for a tall AA, else 0.
pub fn tall(packed: u64) -> u8
    ensures { result ≡ tall_part packed }
{
    part(packed, 0x10000000, 0x10)
}

pub fn tone(packed: u64) -> u8
    ensures { result ≡ tone_part packed }
{
    part(packed, 0x100000000, 0x100)
}

// The number of the second final's letter; 0 where there is none.
pub fn second_letter(packed: u64) -> u8
    ensures { result ≡ second_final_part packed }
{
    part(packed, 0x1000000000000, 0x40)
}
