// Chip words as host floats and back: an f32, the value unchanged; an f64; and buffers of f64s. A float comes in by
// its bits, so that a pattern that is no number is turned away before a float is made of it.
#![tactic(auto)]

pub mod buffer;
pub mod entry;
pub mod floats;
pub mod words;

ghost use Rattle.std.specs.Prelude.{◌≡◌, cond, ◌%◌, ◌^◌, ◌≤◌, ◌<◌};
ghost use Rattle.float.specs.Word.{negative};
ghost use Rattle.host_floats.specs.Host.{exponent_field, host_bits, host_of, word_of, taken_of, host_reply, taken_reply};

use terms::Refusal;

// A word as an f32: a case that carries the float, or one that carries the refusal.
#[derive(Clone, Copy)]
pub enum Host {
    Float(f32),
    Refused(Refusal),
}

// An f32 as a word: a case that carries the word, or one that carries the refusal.
#[derive(Clone, Copy)]
pub enum Taken {
    Word(u32),
    Refused(Refusal),
}

// Either answer as the calls give it: the refusal, and 32 bits, 0 where it carries none.
#[derive(Clone, Copy)]
pub struct Reply {
    pub refusal: Refusal,
    pub bits: u32,
}

// Bit 31, in its place.
fn sign_bit(bits: u32) -> u32
    ensures { (result ≡ cond (negative bits) (2 ^ 31) 0) × (result % 2 ^ 31 ≡ 0) × (result ≤ 2 ^ 31) }
{
    if 0x8000_0000 <= bits { 0x8000_0000 } else { 0 }
}

// The bits of the f32 that has a proper word's value; they are never those of an infinity or a NaN.
fn bits_of(word: u32) -> u32
    ensures { (result ≡ host_bits word) × (exponent_field result < 255) }
{
    if word == 0 {
        return 0;
    }
    sign_bit(word) + ((word / 0x100_0000 + 64) % 128 + 62) * 0x80_0000 + word % 0x80_0000
}

// The f32 of a proper word's value; any other word is refused.
pub fn word_to_f32(word: u32) -> Host
    ensures { result ≡ host_of word }
{
    if float::word::is_proper(word) {
        Host::Float(f32::from_bits(bits_of(word)))
    } else {
        Host::Refused(Refusal::Improper)
    }
}

// The word of the value of an f32 that is not zero and within the words' range, by its bits.
fn word_of(bits: u32) -> u32
    ensures { result ≡ word_of bits }
{
    let exponent = (bits % 0x8000_0000 / 0x80_0000 + 2) % 128;
    sign_bit(bits) + exponent * 0x100_0000 + 0x80_0000 + bits % 0x80_0000
}

// The proper word of an f32's value, by its bits; where there is none, and for minus zero, the refusal.
#[tactic(auto, unfolding(crate::specs::Host::taken_of))]
pub fn f32_to_word(bits: u32) -> Taken
    ensures { result ≡ taken_of bits }
{
    let field = bits % 0x8000_0000 / 0x80_0000;
    if field == 255 {
        return Taken::Refused(Refusal::NotFinite);
    }
    if bits == 0x8000_0000 {
        return Taken::Refused(Refusal::MinusZero);
    }
    if 190 <= field {
        return Taken::Refused(Refusal::TooLarge);
    }
    if bits == 0 {
        return Taken::Word(0);
    }
    if field < 62 {
        return Taken::Refused(Refusal::TooSmall);
    }
    Taken::Word(word_of(bits))
}

// The reply to a word that is to be made an f32.
pub fn reply_to_word(word: u32) -> Reply
    ensures { result ≡ host_reply (host_of word) }
{
    match word_to_f32(word) {
        Host::Float(x) => Reply {
            refusal: Refusal::Done,
            bits: f32::to_bits(x),
        },
        Host::Refused(refusal) => Reply { refusal, bits: 0 },
    }
}

// The reply to an f32 that is to be made a word.
pub fn reply_to_f32(bits: u32) -> Reply
    ensures { result ≡ taken_reply (taken_of bits) }
{
    match f32_to_word(bits) {
        Taken::Word(word) => Reply {
            refusal: Refusal::Done,
            bits: word,
        },
        Taken::Refused(refusal) => Reply { refusal, bits: 0 },
    }
}
