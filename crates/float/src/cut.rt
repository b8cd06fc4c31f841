// The one cut, where every operation ends: a magnitude in fine units of 2^-200 becomes a word and an error.
// A word's magnitude is m * 2^(e + 176) fine units, so k, the digits that a mantissa of 24 loses, is e + 176.
ghost use Rattle.std.specs.Prelude.{◌≡◌, cond, ◌*◌, ◌^◌, ◌≤◌, ◌<◌};
ghost use Rattle.std.specs.Float.Ieee.Nearest.{closest};
ghost use Rattle.float.specs.Cut.{error_at, mantissa_of, digits_of, stored, cut_size};
ghost use Rattle.float.specs.Jam.{Jammed};

use super::Flagged;
use terms::Rule;

// Where e is 64 and where it is -64, as k: the first that overflows, and the last that does not underflow.
const OVER: u32 = 240;

const LEAST: u32 = 112;
// The bits that a number of 64 bits, its top bit set, has below a mantissa of 24.
const BELOW: u32 = 40;
// 2^40, a unit of the mantissa there, and half of it.
const STEP: u64 = 0x100_0000_0000;

const HALF: u64 = 0x80_0000_0000;

// The shift that brings the top bit of a magnitude to bit 63.
fn norm_shift(v: u64) -> u32
    requires { 0 < v }
    ensures { (2 ^ 63 ≤ v * 2 ^ result) × (v * 2 ^ result < 2 ^ 64) × (result < 64) }
{
    v.leading_zeros()
}

// The sign bit of a word.
fn sign_bit(neg: bool) -> u32
    ensures { (result ≡ cond neg 2147483648 0) × (result ≤ 2147483648) }
{
    if neg { 0x8000_0000 } else { 0 }
}

// Overflow or underflow of the exponent k - 176.
#[tactic(auto, unfolding(crate::specs::Cut::error_at))]
fn error_at(k: u32) -> u8
    ensures { result ≡ error_at k }
{
    if OVER <= k {
        terms::OVERFLOW
    } else if k < LEAST {
        terms::UNDERFLOW
    } else {
        0
    }
}

// The word and the error of a sign, a mantissa and the exponent k - 176; k + 80 is that exponent modulo 128.
#[tactic(auto, unfolding(crate::specs::Cut::packed))]
fn store(neg: bool, m: u32, k: u32) -> Flagged
    requires { (m < 16777216) × (k ≤ 4096) }
    ensures { result ≡ stored neg m k }
{
    Flagged {
        word: sign_bit(neg) + (k + 80) % 128 * 0x100_0000 + m,
        error: error_at(k),
    }
}

// The same of 24 digits q, which may have been rounded up to 2^24: then the exponent is one more.
fn settle(neg: bool, q: u64, k: u32) -> Flagged
    requires { (q ≤ 16777216) × (k ≤ 4000) }
    ensures { result ≡ stored neg (mantissa_of q) (digits_of q k) }
{
    if q < 0x100_0000 {
        return store(neg, q as u32, k);
    }
    store(neg, 0x80_0000, k + 1)
}

// The nearest whole number to v / 2^40, of two the even one.
fn nearest(v: u64) -> u64
    ensures { result ≡ closest v (2 ^ 40) }
{
    let q = v >> BELOW;
    if HALF < v % STEP + q % 2 {
        return q + 1;
    }
    q
}

// The word and the error of the magnitude mag * 2^x fine units, under a rule. A caller whose
// magnitude has more digits hands over its leading ones, at least 26, the last made odd where any was lost.
pub fn cut_word(rule: Rule, neg: bool, mag: u64, x: u32) -> Flagged
    requires { (24 ≤ x) × (x ≤ 1000) }
    ensures { result ≡ cut_size rule neg (mag * 2 ^ x) 1 }
{
    if mag == 0 {
        return Flagged { word: 0, error: 0 };
    }
    let s = norm_shift(mag);
    let v = mag << s;
    let k = x + BELOW - s;
    match rule {
        Rule::Cut => store(neg, (v >> BELOW) as u32, k),
        Rule::Nearest => settle(neg, nearest(v), k),
    }
}

// A quotient and a remainder in one number: the quotient, made odd where the remainder is not 0.
pub fn jam(q: u64, v: u64) -> u64
    ensures { Jammed q v result }
{
    if v == 0 {
        return q;
    }
    q / 2 * 2 + 1
}
