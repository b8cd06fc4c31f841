// What trainees see of an operation worked a bit at a time: a line for each step and the line of
// the answer. The text goes into a lent array.
#![tactic(auto)]

pub mod asked;
pub mod lines;
pub mod steps;

ghost use Rattle.std.specs.Prelude.{◌≡◌, ◌+◌, ◌≤◌, length, take};
ghost use Rattle.io.specs.Counts.{IsPrefixLen};
ghost use Rattle.bit_serial.specs.Work.{Operands};
ghost use Rattle.listing.specs.Text.{Adds};
ghost use Rattle.step_text.specs.Lines.{line_room, answer_line};
ghost use Rattle.step_text.specs.Steps.{workings_of};
ghost use Rattle.step_text.specs.Asked.{told_of};

use crate::asked::Asked;
use crate::lines::{add_refusal, add_word};
use crate::steps::add_steps;
use bit_serial::{Operation, Worked};
use terms::{Refusal, Rule, Width};

// Room for 32 steps and the answer: 33 lines of 64 characters.
pub const TEXT_ROOM: usize = 2112;

// The line of an answer.
fn add_answer(out: &mut [u8], place: usize, width: Width, answer: Result<Worked, Refusal>) -> usize
    requires { place + line_room ≤ length out.old }
    ensures { Adds (answer_line width answer) out.old out.new place result }
{
    match answer {
        Ok(worked) => add_word(out, place, width, worked.word, worked.error),
        Err(refusal) => add_refusal(out, place, refusal),
    }
}

// What is told of an operation on B and A, at the front of the lent text: the answer says how many bytes.
fn tell(operation: Operation, rule: Rule, b: u32, a: u32, text: &mut [u8; TEXT_ROOM]) -> usize
    requires { Operands operation b a }
    ensures prefix_len { IsPrefixLen result text.new }
    ensures text_after { take result text.new ≡ workings_of operation rule b a }
{
    let place = add_steps(text, operation.task(b, a));
    let answer = operation.work(rule, b, a);
    add_answer(text, place, operation.width(), answer)
}

// What the program tells for a call of so many words, its own name among them: the line `usage`
// where it asks for nothing that the program does. The text goes to the front of the lent one.
pub fn told(
    words: usize,
    code: &[u8],
    b: &[u8],
    a: &[u8],
    option: &[u8],
    text: &mut [u8; TEXT_ROOM],
) -> usize
    ensures prefix_len { IsPrefixLen result text.new }
    ensures text_after { take result text.new ≡ told_of words code.now b.now a.now
        option.now }
{
    let asked = asked::asked_of(words, code, b, a, option);
    match asked {
        Asked::Work {
            operation,
            rule,
            b: x,
            a: y,
        } => tell(operation, rule, x, y, text),
        Asked::Nothing => listing::text::add(text, 0, b"usage\n"),
    }
}
