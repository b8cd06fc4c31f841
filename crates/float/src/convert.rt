// FLTD and FLTS, from whole numbers to words; FIXD and FIXS, back; CHSF.
ghost use Rattle.std.specs.Prelude.{◌≡◌, ◌*◌, ◌≤◌, ◌<◌};
ghost use Rattle.float.specs.Cut.{cut};
ghost use Rattle.float.specs.Convert.{integer, fltd, flts, whole_part, fix, fixd, fixs, chsf};

use super::Flagged;
use super::cut::cut_word;
use super::word::{biased_of, is_negative, mantissa_of};
use terms::Rule;

// A whole number's unit is so many places above the fine unit.
const WHOLE_UNIT: u32 = 200;
// The exponent plus 64 at which a mantissa is a whole number, 24 + 64, and the last of a magnitude below 1.
const WHOLE: u32 = 88;

const BELOW_ONE: u32 = 64;

// A number in two's complement of which half is the least, cut to a word under a rule.
#[tactic(auto, using(crate::proofs::convert::Fix::integer_below, crate::proofs::convert::Fix::integer_above))]
fn cut_integer(rule: Rule, half: u64, a: u64) -> Flagged
    requires { (half ≤ 2147483648) × (a < 2 * half) }
    ensures { result ≡ cut rule (integer half a) 1 }
{
    let neg = half <= a;
    let magnitude = if neg { 2 * half - a } else { a };
    cut_word(rule, neg, magnitude, WHOLE_UNIT)
}

// FLTD: a number of 32 bits in two's complement, cut to a word.
#[tactic(auto, unfolding(crate::specs::Convert::fltd))]
pub fn fltd(rule: Rule, a: u32) -> Flagged
    ensures { result ≡ fltd rule a }
{
    cut_integer(rule, 0x8000_0000, a as u64)
}

// FLTS: a number of 16 bits in two's complement, as a word.
#[tactic(auto, unfolding(crate::specs::Convert::flts))]
pub fn flts(a: u16) -> Flagged
    ensures { result ≡ flts a }
{
    cut_integer(Rule::Cut, 0x8000, a as u64)
}

// The whole part of the magnitude of a word.
#[tactic(auto, using(crate::proofs::convert::Fix::part_up, crate::proofs::convert::Fix::part_down, crate::proofs::convert::Fix::part_none))]
fn whole_part(w: u32) -> u64
    ensures { result ≡ whole_part w }
{
    let m = mantissa_of(w);
    let e = biased_of(w);
    if WHOLE <= e {
        return m << (e - WHOLE);
    }
    if BELOW_ONE < e {
        return m >> (WHOLE - e);
    }
    0
}

// The whole part of a word in two's complement, or the word and overflow where it is not below half.
#[tactic(auto, using(crate::proofs::convert::Fix::fix_over, crate::proofs::convert::Fix::fix_minus, crate::proofs::convert::Fix::fix_plus))]
fn fix_below(half: u64, a: u32) -> Flagged
    requires { (0 < half) × (half ≤ 2147483648) }
    ensures { result ≡ fix half a }
{
    let n = whole_part(a);
    if half <= n {
        return Flagged {
            word: a,
            error: terms::OVERFLOW,
        };
    }
    if is_negative(a) {
        return Flagged {
            word: ((2 * half - n) % (2 * half)) as u32,
            error: 0,
        };
    }
    Flagged {
        word: n as u32,
        error: 0,
    }
}

// FIXD: the whole part of a word as a number of 32 bits.
pub fn fixd(a: u32) -> Flagged
    ensures { result ≡ fixd a }
{
    fix_below(0x8000_0000, a)
}

// FIXS: the whole part of a word as a number of 16 bits.
pub fn fixs(a: u32) -> Flagged
    ensures { result ≡ fixs a }
{
    fix_below(0x8000, a)
}

// CHSF: the word with its sign bit flipped where bit 23 is set, else the word.
#[tactic(auto, unfolding(crate::specs::Convert::chsf))]
pub fn chsf(w: u32) -> u32
    ensures { result ≡ chsf w }
{
    if w % 0x100_0000 < 0x80_0000 {
        return w;
    }
    if 0x8000_0000 <= w {
        return w - 0x8000_0000;
    }
    w + 0x8000_0000
}
