// One entry of a buffer: a chip word as an f64, always exact, and an f64 as a chip word, exact or brought to
// 24 bits by a rule.
ghost use Rattle.std.specs.Prelude.{◌≡◌, cond, ◌+◌, ◌-◌, ◌*◌, ◌/◌, ◌%◌, ◌^◌, ◌≤◌, ◌<◌};
ghost use Rattle.float.specs.Word.{negative};
ghost use Rattle.float.specs.Cut.{whole, packed};
ghost use Rattle.host_floats.specs.Double.{double_sign, double_field, double_bits, outward_of, judged_of, inward_of};

use terms::{Refusal, Rule};

// The bits that an f64's fraction has below a word's 23, a step there, half of it, and 2^63 in such steps.
const BELOW: u32 = 29;

const STEP: u64 = 0x2000_0000;

const HALF: u64 = 0x1000_0000;

const LARGE: u64 = 0x2_1F00_0000;

// A word as an f64: a case that carries the float, or one that carries the refusal.
#[derive(Clone, Copy)]
pub enum Outward {
    Float(f64),
    Refused(Refusal),
}

// An f64 as a word: the word of exactly its value; the word that it was brought to, with the f64 that
// this word stands for; or the refusal.
#[derive(Clone, Copy)]
pub enum Inward {
    Exact(u32),
    Rounded(u32, f64),
    Refused(Refusal),
}

// Bit 31 of a word, in the place of an f64's sign.
fn double_sign(word: u32) -> u64
    ensures { (result ≡ cond (negative word) (2 ^ 63) 0) × (result ≤ 2 ^ 63) }
{
    if 0x8000_0000 <= word {
        0x8000_0000_0000_0000
    } else {
        0
    }
}

// The bits of the f64 that has a proper word's value; they are never those of an infinity or a NaN.
fn double_bits(word: u32) -> u64
    ensures { (result ≡ double_bits word) × (double_field result < 2047) }
{
    if word == 0 {
        return 0;
    }
    let field = ((word / 0x100_0000 + 64) % 128 + 958) as u64;
    let digits = (word % 0x80_0000) as u64;
    double_sign(word) + field * 0x10_0000_0000_0000 + digits * 0x2000_0000
}

// The f64 of a proper word's value; any other word is refused.
pub fn word_to_f64(word: u32) -> Outward
    ensures { result ≡ outward_of word }
{
    if float::word::is_proper(word) {
        Outward::Float(f64::from_bits(double_bits(word)))
    } else {
        Outward::Refused(Refusal::Improper)
    }
}

// The bits of a magnitude in steps of a word's last digit, under a rule: what is carried past the fraction goes to the
// field.
fn steps(rule: Rule, magnitude: u64) -> u64
    ensures { result ≡ whole rule magnitude (2 ^ 29) }
{
    let q = magnitude >> BELOW;
    match rule {
        Rule::Cut => q,
        Rule::Nearest => if HALF < magnitude % STEP + q % 2 {
            q + 1
        } else {
            q
        },
    }
}

// Bit 63 of an f64, in the place of a word's sign.
fn word_sign(bits: u64) -> u32
    ensures { (result ≡ cond (double_sign bits) (2 ^ 31) 0) × (result ≤ 2 ^ 31) }
{
    if 0x8000_0000_0000_0000 <= bits {
        0x8000_0000
    } else {
        0
    }
}

// The word of an f64's sign and of a magnitude in such steps: the f64's field, less 846, is the place of the mantissa.
fn word_at(bits: u64, place: u64) -> u32
    requires { (958 * 2 ^ 23 ≤ place) × (place < 1086 * 2 ^ 23) }
    ensures { result ≡ packed (double_sign bits) (2 ^ 23 + place % 2 ^ 23) (place / 2 ^ 23 - 846) }
{
    let exponent = (place / 0x80_0000 + 2) % 128;
    word_sign(bits) + exponent as u32 * 0x100_0000 + 0x80_0000 + (place % 0x80_0000) as u32
}

// What an f64 is answered whose value was brought to 24 bits without an error, with the bits of that word's f64.
fn judge(bits: u64, word: u32, own: u64) -> Inward
    requires { (own ≡ double_bits word) × (double_field own < 2047) }
    ensures { result ≡ judged_of bits (record { word = word; error = 0 }) }
{
    if own == bits {
        return Inward::Exact(word);
    }
    Inward::Rounded(word, f64::from_bits(own))
}

// What an f64 under 2^-65 is answered, a zero among them, under either rule.
fn small(rule: Rule, bits: u64) -> Inward
    requires { double_field bits < 958 }
    ensures { result ≡ inward_of rule bits }
{
    if bits == 0x8000_0000_0000_0000 {
        return Inward::Refused(Refusal::MinusZero);
    }
    if bits == 0 {
        return Inward::Exact(0);
    }
    Inward::Refused(Refusal::TooSmall)
}

// The word of an f64, given by its bits, under a rule. The tests that most f64s need not meet stand behind the others.
pub fn f64_to_word(rule: Rule, bits: u64) -> Inward
    ensures { result ≡ inward_of rule bits }
{
    let magnitude = bits % 0x8000_0000_0000_0000;
    let field = magnitude / 0x10_0000_0000_0000;
    if field < 958 {
        return small(rule, bits);
    }
    let place = steps(rule, magnitude);
    if LARGE <= place {
        if field == 2047 {
            return Inward::Refused(Refusal::NotFinite);
        }
        return Inward::Refused(Refusal::TooLarge);
    }
    let own = bits - magnitude + place * STEP;
    judge(bits, word_at(bits, place), own)
}
