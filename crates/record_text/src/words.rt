// The words of a line: blanks and tabs part them, and `#` starts a comment.
ghost use Rattle.std.specs.Prelude.{◌≡◌, ◌≤◌, length};
ghost use Rattle.record_text.specs.Held.{passes, RunTo, NextWord};

use crate::kinds::Span;

// The characters of a blank, a tab and a hash.
const BLANK: u8 = 32;

const TAB: u8 = 9;

const HASH: u8 = 35;

// Whether a character is passed over on the way to the end of blanks, or of a word.
fn passes(blanks: bool, c: u8) -> bool
    ensures { result ≡ passes blanks c }
{
    if c == HASH {
        return false;
    }
    if c == BLANK {
        return blanks;
    }
    if c == TAB {
        return blanks;
    }
    !blanks
}

// Where the blanks from a place on end, or the word.
fn run_end(blanks: bool, line: &[u8], at: usize) -> usize
    requires { at ≤ length line.now }
    ensures { RunTo blanks line.now at result }
{
    let mut i = at;
    while i < line.len() {
        if !passes(blanks, line[i]) {
            return i;
        }
        i += 1;
    }
    i
}

// The next word from a place on; it ends where it begins if there is none.
pub fn next_word(line: &[u8], at: usize) -> Span
    requires { at ≤ length line.now }
    ensures { NextWord line.now at result }
{
    let from = run_end(true, line, at);
    let to = run_end(false, line, from);
    Span { from, to }
}
