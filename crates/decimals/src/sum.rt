// The exact text of a sum as the figures of sheets give it: a sign and 48 hex digits of its magnitude times 2^88.
ghost use Rattle.std.specs.Prelude.{◌≡◌, length, take};
ghost use Rattle.io.specs.Counts.{IsPrefixLen};
ghost use Rattle.decimals.specs.Sum.{Bytes·Of, is_sign, SumOf, sum_line};

use crate::exact::add_exact;
use crate::line::LINE_ROOM;
use crate::magnitude::{Magnitude, of_bytes};
use listing::hex::digit_value;
use listing::text::add;

// The bytes of a sum, and its hex digits behind the sign.
const SUM_BYTES: usize = 24;

const SUM_DIGITS: usize = 48;

// A magnitude with its sign, or none.
#[derive(Clone, Copy)]
pub enum Sum {
    Signed(bool, Magnitude),
    Nothing,
}

// The bytes that 48 hex digits stand for, the lowest first; whether they are all digits.
fn read_bytes(digits: &[u8], bytes: &mut [u8; SUM_BYTES]) -> bool
    requires { (length digits.now ≡ 48) × (length bytes.old ≡ 24) }
    ensures { Bytes·Of digits.now result bytes.new }
{
    let mut left = SUM_BYTES;
    let mut i = 0;
    while 0 < left {
        let high = digit_value(digits[i]);
        let low = digit_value(digits[i + 1]);
        if 16 <= high {
            return false;
        }
        if 16 <= low {
            return false;
        }
        left -= 1;
        bytes[left] = high * 16 + low;
        i += 2;
    }
    true
}

// Whether a character is the sign of a sum.
fn is_sign(c: u8) -> bool
    ensures { result ≡ is_sign c }
{
    if c == b'+' {
        return true;
    }
    c == b'-'
}

// The sum that a text gives.
fn read_sum(text: &[u8]) -> Sum
    ensures { SumOf text.now result }
{
    if text.len() != 1 + SUM_DIGITS {
        return Sum::Nothing;
    }
    let sign = text[0];
    if !is_sign(sign) {
        return Sum::Nothing;
    }
    let mut bytes = [0u8; SUM_BYTES];
    if !read_bytes(&text[1..], &mut bytes) {
        return Sum::Nothing;
    }
    Sum::Signed(sign == b'-', of_bytes(bytes))
}

// The line of a sum, at the front of the lent one: the answer says how many bytes.
pub fn tell_sum(text: &[u8], out: &mut [u8; LINE_ROOM]) -> usize
    ensures prefix_len { IsPrefixLen result out.new }
    ensures out_after { take result out.new ≡ sum_line text.now }
{
    let sum = read_sum(text);
    match sum {
        Sum::Signed(neg, size) => {
            let next = add_exact(out, 0, neg, size);
            add(out, next, b"\n")
        }
        Sum::Nothing => add(out, 0, b"wrong\n"),
    }
}
