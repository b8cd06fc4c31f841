// The error memory round a chip, as document 02 asks for it: the error bits of every status that commands left since
// reset or clearing, joined, and the code of the first command that left any. The chip knows nothing of it: an event is
// the chip's, and what it leaves remembered follows from the chip's answer.
#![tactic(auto)]

ghost use Rattle.std.specs.Prelude.{◌≡◌, ◌<◌};
ghost use Rattle.error_memory.specs.Memory.{empty_memory, errors_of, first_code, remembered, is_memory};

// The bits 4 to 1 in their places, so an even number up to 30, and the code without its service bit.
#[derive(Clone, Copy)]
pub struct Memory {
    pub bits: u8,
    pub code: u8,
}

// A chip and its memory, as they stand on the card. The settings of a call, mode and rule, go beside it.
#[derive(Clone, Copy)]
pub struct Card {
    pub chip: chip::State,
    pub memory: Memory,
}

// Nothing remembered.
pub fn empty() -> Memory
    ensures { result ≡ empty_memory }
{
    Memory { bits: 0, code: 0 }
}

// Bits 4 to 1 of a status, in their places.
fn errors(status: u8) -> u8
    ensures { (result ≡ errors_of status) × (result < 32) }
{
    status / 2 % 16 * 2
}

// The code remembered after a command that left these error bits: the one that stood, else the command's where it left
// any.
fn first(stood: u8, left: u8, code: u8) -> u8
    ensures { result ≡ first_code stood left code }
{
    if stood != 0 {
        return stood;
    }
    if left == 0 {
        return 0;
    }
    code % 128
}

// What an accepted command leaves remembered, by its code and the status that it left.
pub fn remember(m: Memory, code: u8, status: u8) -> Memory
    ensures { result ≡ remembered m code status }
{
    let left = errors(status);
    Memory {
        bits: m.bits | left,
        code: first(m.code, left, code),
    }
}

// Whether two bytes stand for a memory: no bit outside 4 to 1, no code without bits, no bits without a code.
pub fn is_memory(bits: u8, code: u8) -> bool
    ensures { result ≡ is_memory bits code }
{
    (bits <= 30) & (bits % 2 == 0) & ((bits == 0) == (code == 0))
}
