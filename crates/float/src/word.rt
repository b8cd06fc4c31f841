// What a float word says: its sign, its exponent and its mantissa, and whether it is proper.
// Stays as it is: a type for a word is no plainer, since the stack, the records and C hold the u32 at each call.
ghost use Rattle.std.specs.Prelude.{◌≡◌, ◌<◌};
ghost use Rattle.float.specs.Word.{negative, biased, mantissa, proper};

// Whether a word's sign bit is set.
pub fn is_negative(w: u32) -> bool
    ensures { result ≡ negative w }
{
    0x8000_0000 <= w
}

// A word's exponent plus 64.
pub fn biased_of(w: u32) -> u32
    ensures { (result ≡ biased w) × (result < 128) }
{
    (w / 0x100_0000 + 64) % 128
}

// A word's mantissa.
pub fn mantissa_of(w: u32) -> u64
    ensures { (result ≡ mantissa w) × (result < 16777216) }
{
    (w % 0x100_0000) as u64
}

// Whether bit 23 is set or the word is all zeros.
pub fn is_proper(w: u32) -> bool
    ensures { result ≡ proper w }
{
    if 0x80_0000 <= w % 0x100_0000 {
        return true;
    }
    w == 0
}
