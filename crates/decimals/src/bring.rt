// A number of digits with a point, brought to a word by a rule: a quotient by a power of five, found bit by bit to
// 26 bits or more and made odd where something remains, is cut as the exact one.
ghost use Rattle.std.specs.Prelude.{◌≡◌, cond, ◌+◌, ◌*◌, ◌/◌, ◌^◌, ◌≤◌, ◌<◌, eqb, ltb};
ghost use Rattle.float.specs.Cut.{cut};
ghost use Rattle.decimals.specs.Bring.{NextBit, Quotient·Of, NearTo, bring_of};

use float::cut::{cut_word, jam};
use float::word::{biased_of, mantissa_of};
use terms::{Refusal, Rule};

// 2^25: with so much the last bit of a quotient stands for all that is below it.
const ENOUGH: u64 = 0x200_0000;
// A whole number's unit is so many places above the fine unit.
const WHOLE_UNIT: u32 = 200;
// A word's last digit is so many places above the fine unit, more than its exponent plus 64.
const WORD_UNIT: u32 = 112;

// A text's number of fewer places is never under 2^-65.
const SMALL_PLACES: u32 = 20;

// What a decimal is as a word: the word of exactly its value, the word that it was brought to, or the refusal.
#[derive(Clone, Copy)]
pub enum Brought {
    Exact(u32),
    Rounded(u32),
    Refused(Refusal),
}

// A quotient with what remains, so many bits further than it began.
#[derive(Clone, Copy)]
pub struct Quotient {
    pub whole: u64,
    pub rest: u64,
    pub bits: u32,
}

// A number that stands for an exact value, and the place of its unit above the fine unit.
#[derive(Clone, Copy)]
pub struct Near {
    pub stand: u64,
    pub place: u32,
}

// 5 to a power.
fn five_to(n: u32) -> u64
    requires { n ≤ 27 }
    ensures { (result ≡ 5 ^ n) × (0 < result) × (result < 2 ^ 63) }
{
    let mut power: u64 = 1;
    let mut i = 0;
    while i < n {
        power = power * 5;
        i += 1;
    }
    power
}

// One bit more of a quotient.
fn next_bit(q: Quotient, d: u64) -> Quotient
    requires { (q.rest < d) × (d < 2 ^ 63) × (q.whole < 2 ^ 25) × (q.bits < 88) }
    ensures { NextBit q d result }
{
    let rest = 2 * q.rest;
    if d <= rest {
        return Quotient {
            whole: 2 * q.whole + 1,
            rest: rest - d,
            bits: q.bits + 1,
        };
    }
    Quotient {
        whole: 2 * q.whole,
        rest,
        bits: q.bits + 1,
    }
}

// A quotient carried on until it has 26 bits.
fn carried(whole: u64, rest: u64, d: u64) -> Quotient
    requires { (rest < d) × (d < 2 ^ 63) × (0 < whole + rest) }
    ensures { Quotient·Of whole rest d result }
{
    let mut q = Quotient {
        whole,
        rest,
        bits: 0,
    };
    while q.whole < ENOUGH {
        q = next_bit(q, d);
    }
    q
}

// The number that stands for digits and places: the whole part where it has 26 bits, else a quotient.
fn stand_for(whole: u64, fraction: u64, places: u32) -> Near
    requires { (places ≤ 27) × (fraction < 10 ^ places) × (fraction < 10 ^ 19) × (0 < whole + fraction) }
    ensures { NearTo (whole * 10 ^ places + fraction) places result }
{
    if ENOUGH <= whole {
        return Near {
            stand: jam(whole, fraction),
            place: WHOLE_UNIT,
        };
    }
    let d = five_to(places);
    let q = carried((whole << places) + fraction / d, fraction % d, d);
    Near {
        stand: jam(q.whole, q.rest),
        place: WHOLE_UNIT - q.bits - places,
    }
}

// Whether digits and places are under 2^-65.
fn is_small(whole: u64, fraction: u64, places: u32) -> bool
    requires { (places ≤ 27) × (0 < whole + fraction) }
    ensures { result ≡ ltb ((whole * 10 ^ places + fraction) * 2 ^ 65) (10 ^ places) }
{
    if 0 < whole {
        return false;
    }
    if places < SMALL_PLACES {
        return false;
    }
    fraction <= (five_to(places) - 1) >> (65 - places)
}

// Whether a mantissa m at the place k is t at the place x.
fn is_kept(m: u64, k: u32, t: u64, x: u32) -> bool
    requires { (0 < m) × (m < 2 ^ 24) × (2 ^ 25 ≤ t) }
    ensures { result ≡ eqb (m * 2 ^ k) (t * 2 ^ x) }
{
    if k < x {
        return false;
    }
    let j = k - x;
    if 64 <= j {
        return false;
    }
    if t >> j != m {
        return false;
    }
    t % (1 << j) == 0
}

// Whether all digits are 0.
fn is_nothing(whole: u64, fraction: u64) -> bool
    ensures { result ≡ eqb (whole + fraction) 0 }
{
    if whole == 0 {
        return fraction == 0;
    }
    false
}

// Digits and places with a sign, as a word by a rule.
pub fn bring(rule: Rule, neg: bool, whole: u64, fraction: u64, places: u32) -> Brought
    requires { (places ≤ 27) × (fraction < 10 ^ places) × (fraction < 10 ^ 19) }
    ensures { result ≡ bring_of rule neg (whole * 10 ^ places + fraction) places }
{
    if is_nothing(whole, fraction) {
        return Brought::Exact(0);
    }
    if is_small(whole, fraction, places) {
        return Brought::Refused(Refusal::TooSmall);
    }
    let near = stand_for(whole, fraction, places);
    let t = near.stand;
    let x = near.place;
    let r = cut_word(rule, neg, t, x);
    let word = r.word;
    if r.error != 0 {
        return Brought::Refused(Refusal::TooLarge);
    }
    if is_kept(mantissa_of(word), biased_of(word) + WORD_UNIT, t, x) {
        return Brought::Exact(word);
    }
    Brought::Rounded(word)
}
