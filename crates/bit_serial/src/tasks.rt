// What the steps of an operation work on, for whoever wants to see them one by one.
ghost use Rattle.std.specs.Prelude.{◌≡◌};
ghost use Rattle.bit_serial.specs.Work.{Operands, Narrow, mul_task, div_task, fmul_task, fdiv_task, task_of};

use super::Operation;
use super::floats::{MANTISSA_BITS, QUOTIENT_DIGITS, mantissas};
use super::words::Words;

// x times y, or v over d, in at most so many steps.
#[derive(Clone, Copy)]
pub enum Task {
    Multiply { x: u64, y: u64, most: u32 },
    Divide { v: u64, d: u64, most: u32 },
}

// MUL and MUU: the magnitudes multiplied, unless a row names the words.
#[tactic(auto, unfolding(crate::specs::Work::mul_task))]
fn product_of(words: Words) -> Option<Task>
    ensures { (result ≡ mul_task words.half words.bits words.b words.a) × Narrow result }
{
    let (x, y) = words.sizes()?;
    Some(Task::Multiply {
        x,
        y,
        most: words.bits,
    })
}

// DIV: the magnitudes divided, unless a row names the words.
#[tactic(auto, unfolding(crate::specs::Work::div_task))]
fn quotient_of(words: Words) -> Option<Task>
    ensures { (result ≡ div_task words.half words.bits words.b words.a) × Narrow result }
{
    let (x, y) = words.sizes()?;
    if words.a == 0 {
        return None;
    }
    Some(Task::Divide {
        v: x,
        d: y,
        most: words.bits,
    })
}

// FMUL: the mantissas multiplied, unless an operand is refused.
#[tactic(auto, unfolding(crate::specs::Work::fmul_task))]
fn float_product_of(b: u32, a: u32) -> Option<Task>
    ensures { (result ≡ fmul_task b a) × Narrow result }
{
    let (x, y) = mantissas(b, a).ok()?;
    Some(Task::Multiply {
        x,
        y,
        most: MANTISSA_BITS,
    })
}

// FDIV: the mantissas divided, unless an operand is refused or the divisor is zero.
#[tactic(auto, unfolding(crate::specs::Work::fdiv_task))]
fn float_quotient_of(b: u32, a: u32) -> Option<Task>
    ensures { (result ≡ fdiv_task b a) × Narrow result }
{
    let (x, y) = mantissas(b, a).ok()?;
    if y == 0 {
        return None;
    }
    Some(Task::Divide {
        v: x << (QUOTIENT_DIGITS - 1),
        d: y,
        most: QUOTIENT_DIGITS,
    })
}

impl Operation {
    // What the steps of the operation on B and A work on, or nothing where none is made.
    pub fn task(self, b: u32, a: u32) -> Option<Task>
        requires { Operands self b a }
        ensures { (result ≡ task_of self b a) × Narrow result }
    {
        match self {
            Operation::Mul(width) | Operation::Muu(width) => product_of(Words::of(width, b, a)),
            Operation::Div(width) => quotient_of(Words::of(width, b, a)),
            Operation::Fmul => float_product_of(b, a),
            Operation::Fdiv => float_quotient_of(b, a),
        }
    }
}
