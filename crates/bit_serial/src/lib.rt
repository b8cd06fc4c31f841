// The chip's own way of working: MUL, MUU, DIV, FMUL and FDIV a bit at a time. A step adds or
// subtracts one shifted operand, and the loop is left as soon as no bits remain.
// No stack and no status here: words in; a word, its error and the number of steps out, or a refusal.
#![tactic(auto)]

pub mod divide;
pub mod floats;
pub mod multiply;
pub mod tasks;
pub mod words;

ghost use Rattle.std.specs.Prelude.{◌≡◌};
ghost use Rattle.terms.specs.Width.{bits_of};
ghost use Rattle.fixed.specs.Fixed.{half};
ghost use Rattle.bit_serial.specs.Work.{width_of, Operands, answer_of};

use crate::words::Words;
use terms::{Refusal, Rule, Width};

// The operations that are worked a bit at a time; the fixed-point ones carry their width.
#[derive(Clone, Copy)]
pub enum Operation {
    Mul(Width),
    Muu(Width),
    Div(Width),
    Fmul,
    Fdiv,
}

// What an operation makes: the word, its error (0 for none, or one of the numbers that `terms`
// names) and the number of steps made.
#[derive(Clone, Copy)]
pub struct Worked {
    pub word: u32,
    pub error: u8,
    pub steps: u32,
}

// Half of the number of words.
pub fn half_of(width: Width) -> u32
    ensures { result ≡ half (bits_of width) }
{
    match width {
        Width::Single => fixed::HALF_16,
        Width::Double => fixed::HALF_32,
    }
}

impl Operation {
    // The width of the operation's words; float words have 32 bits.
    pub fn width(self) -> Width
        ensures { result ≡ width_of self }
    {
        match self {
            Operation::Mul(width) | Operation::Muu(width) | Operation::Div(width) => width,
            Operation::Fmul | Operation::Fdiv => Width::Double,
        }
    }

    // What the operation makes of B and A, words of its width, under a rule.
    pub fn work(self, rule: Rule, b: u32, a: u32) -> Result<Worked, Refusal>
        requires { Operands self b a }
        ensures { result ≡ answer_of self rule b a }
    {
        match self {
            Operation::Mul(width) => Ok(Words::of(width, b, a).mul()),
            Operation::Muu(width) => Ok(Words::of(width, b, a).muu()),
            Operation::Div(width) => Ok(Words::of(width, b, a).div()),
            Operation::Fmul => floats::fmul(rule, b, a),
            Operation::Fdiv => floats::fdiv(rule, b, a),
        }
    }
}
