// The lines: of one step, of a word with its error and status, of a refusal.
ghost use Rattle.std.specs.Prelude.{◌≡◌, cond, ◌+◌, ◌≤◌, leb, eqb, length};
ghost use Rattle.terms.specs.Width.{bits_of};
ghost use Rattle.fixed.specs.Fixed.{half};
ghost use Rattle.listing.specs.Text.{Adds};
ghost use Rattle.step_text.specs.Lines.{line_room, step_line, status_for, status_end, word_line, refusal_line};

use listing::add_field;
use listing::hex::add_digits;
use listing::text::{add, add_decimal};
use terms::{Refusal, Width};

// The line of a step: its number, the bits or digits left, the partial result.
pub fn add_step(out: &mut [u8], place: usize, number: u64, left: u64, partial: u64) -> usize
    requires { place + line_room ≤ length out.old }
    ensures { Adds (step_line number left partial) out.old out.new place result
        × (result ≤ place + line_room) }
{
    let a = add_decimal(out, place, number);
    let b = add_field(out, a, left);
    let c = add(out, b, b" ");
    let d = add_digits(out, c, partial, 16, 16);
    add(out, d, b"\n")
}

// Bit 6 of the status: the word's top bit.
fn sign_bit(width: Width, word: u32) -> u64
    ensures { (result ≡ cond (leb (half (bits_of width)) word) 64 0) × (result ≤ 64) }
{
    if bit_serial::half_of(width) <= word {
        64
    } else {
        0
    }
}

// Bit 5 of the status: the word is all zero bits.
fn zero_bit(word: u32) -> u64
    ensures { (result ≡ cond (eqb word 0) 32 0) × (result ≤ 32) }
{
    if word == 0 { 32 } else { 0 }
}

// The status of a word and its error, no carry.
fn status(width: Width, word: u32, error: u8) -> u64
    ensures { result ≡ status_for width word error }
{
    2 * (error as u64) + sign_bit(width, word) + zero_bit(word)
}

// The end of a word's line: its status.
fn add_status(out: &mut [u8], place: usize, width: Width, word: u32, error: u8) -> usize
    requires { place + 11 ≤ length out.old }
    ensures { Adds (status_end width word error) out.old out.new place result }
{
    let a = add(out, place, b" status ");
    let b = add_digits(out, a, status(width, word, error), 16, 2);
    add(out, b, b"\n")
}

// The line of a word.
pub fn add_word(out: &mut [u8], place: usize, width: Width, word: u32, error: u8) -> usize
    requires { place + line_room ≤ length out.old }
    ensures { Adds (word_line width word error) out.old out.new place result }
{
    let a = add(out, place, b"word ");
    let b = add_digits(out, a, word as u64, 16, 2 * terms::size(width));
    let c = add(out, b, b" error");
    let d = add_field(out, c, error as u64);
    add_status(out, d, width, word, error)
}

// The line of a refusal.
pub fn add_refusal(out: &mut [u8], place: usize, refusal: Refusal) -> usize
    requires { place + line_room ≤ length out.old }
    ensures { Adds (refusal_line refusal) out.old out.new place result }
{
    let a = add(out, place, b"refused");
    let b = add_field(out, a, terms::number(refusal) as u64);
    add(out, b, b"\n")
}
