// What the operations stand on: the error of an overflow, a word's sign and magnitude, and the bits
// of a number with a sign.
ghost use Rattle.std.specs.Prelude.{◌≡◌, ◌*◌, ◌<◌, ◌≤◌, true, false, not};
ghost use Rattle.std.specs.Float.Ieee.{unlike};
ghost use Rattle.std.specs.Int.Signed.{shr_z};
ghost use Rattle.numbers.specs.Signed.{with_sign};
ghost use Rattle.fixed.specs.Fixed.{outcome, overflow_if, low, fits, either_least};
ghost use Rattle.fixed.specs.Parts.{negative_at, magnitude_at};

use super::Fixed;

// The error number of a result that may overflow.
pub fn overflow_bit(over: bool) -> u8
    ensures { result ≡ overflow_if over }
{
    if over { terms::OVERFLOW } else { 0 }
}

// The magnitude of a word's value.
pub fn magnitude(h: u32, w: u32) -> u64
    requires { (h ≤ 2147483648) × (w < 2 * h) }
    ensures { (result ≡ magnitude_at h w) × (result ≤ h) }
{
    if h <= w {
        2 * (h as u64) - (w as u64)
    } else {
        w as u64
    }
}

// Whether one of two words is negative and the other not.
pub fn unlike_signs(h: u32, b: u32, a: u32) -> bool
    ensures { result ≡ unlike (negative_at h b) (negative_at h a) }
{
    (h <= b) != (h <= a)
}

// The low bits of m, or of -m.
pub fn low_bits(h: u32, neg: bool, m: u64) -> u32
    requires { (0 < h) × (h ≤ 2147483648) }
    ensures { result ≡ low h (with_sign neg m) }
{
    let full = 2 * (h as u64);
    let r = m % full;
    if r == 0 {
        return 0;
    }
    if neg {
        return (full - r) as u32;
    }
    r as u32
}

// The low bits of m over 2h, or of -m over 2h, rounded down.
pub fn upper_bits(h: u32, neg: bool, m: u64) -> u32
    requires { (0 < h) × (h ≤ 2147483648) × (m < 2 * h * h) }
    ensures { result ≡ low h (shr_z (with_sign neg m) (2 * h)) }
{
    let full = 2 * (h as u64);
    if m == 0 {
        return 0;
    }
    if neg {
        return (full - 1 - (m - 1) / full) as u32;
    }
    (m / full) as u32
}

// Whether m, or -m, is out of the range.
pub fn exceeds(h: u32, neg: bool, m: u64) -> bool
    requires { 0 < h }
    ensures { result ≡ not (fits h (with_sign neg m)) }
{
    if neg { (h as u64) < m } else { (h as u64) <= m }
}

// Whether an operand is the least value.
pub fn either_least(h: u32, b: u32, a: u32) -> bool
    ensures { result ≡ either_least h b a }
{
    (b == h) | (a == h)
}

// What 01's rows give for a least operand: the least word, and overflow.
pub fn least_word(h: u32) -> Fixed
    ensures { result ≡ outcome h (overflow_if true) false }
{
    Fixed {
        word: h,
        error: terms::OVERFLOW,
        carry: false,
    }
}
