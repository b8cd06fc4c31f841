// Two's complement arithmetic at 16 and at 32 bits, on unsigned words: the chip's fixed-point
// operations, each with its error and its carry. The functions over h, half of the number of
// words, serve both widths; h is also the word of the least value.
#![tactic(auto)]

pub mod parts;
pub mod product;
pub mod sum;

// h at 16 bits, and at 32.
pub const HALF_16: u32 = 0x8000;

pub const HALF_32: u32 = 0x8000_0000;

// The result: its word, its error, 0 for none or one of the numbers that `terms` names, its carry or borrow.
#[derive(Clone, Copy)]
pub struct Fixed {
    pub word: u32,
    pub error: u8,
    pub carry: bool,
}
