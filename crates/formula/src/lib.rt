// Formulas to record files. A text is read once and brought into postfix order. The records of that are
// written twice by the same function: first for their number and the refusals, with no room for them,
// then to the file.
#![tactic(auto)]

pub mod parts;
pub mod postfix;
pub mod store;
pub mod words;

ghost use Rattle.std.specs.Prelude.{◌≡◌, ◌≤◌, length};
ghost use Rattle.formula.specs.Told.{most_text};
ghost use Rattle.formula.specs.Postfix.{Spelt};
ghost use Rattle.formula.specs.Translation.{letter_bytes, number_of, translation_of, Judges, Measures, Translates};

use crate::parts::{NOWHERE, at_of, end_of, sum};
use crate::postfix::{Written, records};

// The bytes of the letters' words, the most bytes of a text, the words of the stack, and how deep brackets and minus
// signs may nest.
pub const LETTER_BYTES: usize = 32;

pub const MOST_TEXT: usize = 256;

pub const MOST_NEED: usize = 4;

pub const MOST_NESTED: u32 = 16;

// Why a text is not translated, in the order in which it is asked.
#[derive(Clone, Copy)]
pub enum Refusal {
    Done,
    NoFormula,
    Improper,
    NeedsMore,
    NoRoom,
}

// The number that 02 gives a refusal.
pub fn number(refusal: Refusal) -> u8
    ensures { (result ≡ number_of refusal) × (result ≤ 33) }
{
    match refusal {
        Refusal::Done => 0,
        Refusal::NoFormula => 30,
        Refusal::Improper => 31,
        Refusal::NeedsMore => 32,
        Refusal::NoRoom => 33,
    }
}

// A translation: the refusal, and the bytes of the file.
#[derive(Clone, Copy)]
pub struct Translation {
    pub refusal: Refusal,
    pub size: usize,
}

// What the records of a formula come to. The byte lent here is no room for them.
fn measured(bytes: &[u8], letters: &[u8]) -> Written
    requires { Spelt bytes.now × (length bytes.now ≤ most_text) × (length letters.now ≡ letter_bytes) }
    ensures { Measures letters.now bytes.now result }
{
    let mut none = [0u8; 1];
    records(bytes, letters, &mut none)
}

// A call that writes nothing.
fn turn_away(refusal: Refusal) -> Translation
    ensures { (result.refusal ≡ refusal) × (result.size ≡ 0) }
{
    Translation { refusal, size: 0 }
}

// The file of a formula in postfix order, or why there is none.
fn written(bytes: &[u8], letters: &[u8], file: &mut [u8]) -> Translation
    requires { Spelt bytes.now × (length bytes.now ≤ most_text) × (length letters.now ≡ letter_bytes) }
    ensures { Judges letters.now bytes.now result.refusal result.size file.old
        file.new }
{
    let w = measured(bytes, letters);
    if !w.proper {
        return turn_away(Refusal::Improper);
    }
    if MOST_NEED < w.need {
        return turn_away(Refusal::NeedsMore);
    }
    if file.len() < w.end {
        return turn_away(Refusal::NoRoom);
    }
    records(bytes, letters, file);
    Translation {
        refusal: Refusal::Done,
        size: w.end,
    }
}

// One formula to a record file at the front of `file`. A refusal writes nothing.
pub fn translate(text: &[u8], letters: &[u8], file: &mut [u8]) -> Translation
    ensures { Translates (translation_of letters.now text.now (length file.old))
        result.refusal result.size file.old file.new }
{
    if letters.len() != LETTER_BYTES {
        return turn_away(Refusal::NoFormula);
    }
    let n = text.len();
    if n == 0 {
        return turn_away(Refusal::NoFormula);
    }
    if MOST_TEXT < n {
        return turn_away(Refusal::NoFormula);
    }
    let mut postfix = [0u8; 256];
    let p = sum(text, &mut postfix, 0, MOST_NESTED);
    if p == NOWHERE {
        return turn_away(Refusal::NoFormula);
    }
    if at_of(p) != n {
        return turn_away(Refusal::NoFormula);
    }
    written(&postfix[..end_of(p)], letters, file)
}
