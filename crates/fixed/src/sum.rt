// ADD and SUB: by arithmetic that wraps on purpose, with the overflow, the carry and the borrow told from the wrapped
// result. One form for every width whose words divide those of 32 bits, so that what wraps there wraps here.
ghost use Rattle.std.specs.Prelude.{◌≡◌};
ghost use Rattle.fixed.specs.Fixed.{half, add, sub};
ghost use Rattle.fixed.specs.Parts.{Words, Wraps};

use super::parts::{low_bits, overflow_bit, unlike_signs};
use super::{Fixed, HALF_16, HALF_32};

// SADD and DADD: B + A. The wrapped sum overflows where like signs turn to the other, and the carry shows where it fell
// below an operand.
pub fn add(h: u32, b: u32, a: u32) -> Fixed
    requires words { Words h b a }
    requires wraps { Wraps h }
    ensures { result ≡ add h b a }
{
    let word = low_bits(h, false, b.wrapping_add(a) as u64);
    let over = !unlike_signs(h, b, a) & unlike_signs(h, b, word);
    Fixed {
        word,
        error: overflow_bit(over),
        carry: word < b,
    }
}

// SADD, of every two words.
pub fn add16(b: u16, a: u16) -> Fixed
    ensures { result ≡ add (half 16) b a }
{
    add(HALF_16, b as u32, a as u32)
}

// DADD, of every two words.
pub fn add32(b: u32, a: u32) -> Fixed
    ensures { result ≡ add (half 32) b a }
{
    add(HALF_32, b, a)
}

// SSUB and DSUB: B - A. The wrapped difference overflows where A is least, and where unlike signs leave another than
// B's; the carry is the borrow.
pub fn sub(h: u32, b: u32, a: u32) -> Fixed
    requires words { Words h b a }
    requires wraps { Wraps h }
    ensures { result ≡ sub h b a }
{
    let word = low_bits(h, false, b.wrapping_sub(a) as u64);
    let over = (a == h) | (unlike_signs(h, b, a) & unlike_signs(h, b, word));
    Fixed {
        word,
        error: overflow_bit(over),
        carry: b < a,
    }
}

// SSUB, of every two words.
pub fn sub16(b: u16, a: u16) -> Fixed
    ensures { result ≡ sub (half 16) b a }
{
    sub(HALF_16, b as u32, a as u32)
}

// DSUB, of every two words.
pub fn sub32(b: u32, a: u32) -> Fixed
    ensures { result ≡ sub (half 32) b a }
{
    sub(HALF_32, b, a)
}
