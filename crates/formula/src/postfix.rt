// A formula in postfix order, to its records. What falls past the end of what is lent is left out.
ghost use Rattle.std.specs.Prelude.{◌≡◌, ◌≤◌, max, length};
ghost use Rattle.std.proofs.lemmas.List.Edits.{sets};
ghost use Rattle.formula.specs.File.{push_record, command_record};
ghost use Rattle.formula.specs.Told.{most_text};
ghost use Rattle.formula.specs.Postfix.{Spelt, pushed_of, lowered_by, commanded_of, Records};

use crate::store::{command_record, push_record};
use crate::words::{hex_word, letter_word};
use float::word::is_proper;

// What was written: the bytes of the records, the words that they leave on the stack, the most that
// they had there, and whether each of the words is proper.
#[derive(Clone, Copy)]
pub struct Written {
    pub end: usize,
    pub height: usize,
    pub need: usize,
    pub proper: bool,
}

// The greater of two numbers.
fn greater(a: usize, b: usize) -> usize
    ensures { result ≡ max a b }
{
    if a < b { b } else { a }
}

// An operand.
fn pushed(out: &mut [u8], w: Written, word: u32) -> Written
    requires { (w.end ≤ 2048) × (w.height ≤ most_text) }
    ensures { (result ≡ pushed_of w word) × (out.new ≡ sets out.old w.end (push_record word)) }
{
    push_record(out, w.end, word);
    Written {
        end: w.end + 8,
        height: w.height + 1,
        need: greater(w.need, w.height + 1),
        proper: w.proper & is_proper(word),
    }
}

// The words on the stack after a command: a minus leaves as many, an operation one less.
fn lowered(height: usize, code: u8) -> usize
    ensures { result ≡ lowered_by code height }
{
    if code == 0x15 {
        return height;
    }
    if height == 0 {
        return 0;
    }
    height - 1
}

// A command.
fn commanded(out: &mut [u8], w: Written, code: u8) -> Written
    requires { w.end ≤ 2048 }
    ensures { (result ≡ commanded_of w code)
        × (out.new ≡ sets out.old w.end (command_record code)) }
{
    command_record(out, w.end, code);
    Written {
        end: w.end + 5,
        height: lowered(w.height, code),
        need: w.need,
        proper: w.proper,
    }
}

// The records of a formula in postfix order, from the front of what is lent on.
pub fn records(bytes: &[u8], letters: &[u8], out: &mut [u8]) -> Written
    requires { Spelt bytes.now × (length bytes.now ≤ most_text) × (length letters.now ≡ 32) }
    ensures { Records letters.now bytes.now out.old out.new result }
{
    let mut i = 0;
    let mut w = Written {
        end: 0,
        height: 0,
        need: 0,
        proper: true,
    };
    while i < bytes.len() {
        let b = bytes[i];
        if b < 32 {
            w = commanded(out, w, b);
            i += 1;
        } else {
            if b == b'#' {
                let first = i + 1;
                let next = i + 9;
                w = pushed(out, w, hex_word(&bytes[first..next]));
                i = next;
            } else {
                w = pushed(out, w, letter_word(letters, (b - b'a') as usize));
                i += 1;
            }
        }
    }
    w
}
