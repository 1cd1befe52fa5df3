// What a slice holds, put into another from a place on, and what is moved or cleared within one.
ghost use Rattle.std.specs.Prelude.{◌≡◌, ◌+◌, ◌≤◌, length, take, drop, replicate};
ghost use Rattle.std.proofs.lemmas.List.Edits.{sets};

// Puts values or bytes into the output from a place on.
pub fn put_all<T: Copy>(values: &[T], output: &mut [T], at: usize)
    requires { at + length values.now ≤ length output.old }
    ensures { output.new ≡ sets output.old at values.now }
{
    // A loop: by the library's copy from one lent list to another the archive would need `memmove` from outside.
    for (done, value) in values.iter().enumerate() {
        output[at + done] = *value;
    }
}

// Moves bytes down to an earlier place of the same slice.
pub fn move_down(bytes: &mut [u8], from: usize, to: usize, count: usize)
    requires { (to ≤ from) × (from + count ≤ length bytes.old) }
    ensures { bytes.new ≡ sets bytes.old to (take count (drop from bytes.old)) }
{
    bytes.copy_within(from..from + count, to);
}

// Writes zeros from a place on.
pub fn clear(bytes: &mut [u8], from: usize, count: usize)
    requires { from + count ≤ length bytes.old }
    ensures { bytes.new ≡ sets bytes.old from (replicate count 0) }
{
    bytes[from..from + count].fill(0);
}
