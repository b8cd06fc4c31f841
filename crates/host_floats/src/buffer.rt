// Buffers of chip words turned to f64s and back, little-endian, four and eight bytes each. The whole
// buffer is looked through first; where every entry is taken, each is written in turn.
ghost use Rattle.std.specs.Prelude.{◌≡◌};
ghost use Rattle.terms.specs.Refusal.{number_of};

use terms::{Refusal, number};

// The bytes of a word, and of an f64.
pub const WORD_SIZE: usize = 4;

pub const FLOAT_SIZE: usize = 8;

// What one entry says: the number of its refusal, the word or the bits of the f64 that is written for
// it, and 1 where it was brought to 24 bits.
#[derive(Clone, Copy)]
pub struct Entry {
    pub refusal: u8,
    pub bits: u64,
    pub rounded: usize,
}

// What is replied to a buffer: 0 and how many entries were brought to 24 bits; or the refusal of the
// first entry that is refused and its number, counted from 1; or another refusal and 0.
#[derive(Clone, Copy)]
pub struct BufferReply {
    pub refusal: u8,
    pub number: usize,
}

// The reply where no entry is looked at.
pub fn away(refusal: Refusal) -> BufferReply
    ensures { result ≡ record { refusal = number_of refusal; number = 0 } }
{
    BufferReply {
        refusal: number(refusal),
        number: 0,
    }
}
