// What a call of the program asks for: CODE B A in hex, and then `--nearest` or nothing.
ghost use Rattle.std.specs.Prelude.{◌≡◌, ◌*◌, ◌^◌, ◌≤◌};
ghost use Rattle.terms.specs.Width.{bits_of};
ghost use Rattle.bit_serial.specs.Work.{width_of};
ghost use Rattle.listing.specs.Hex.{Below};
ghost use Rattle.step_text.specs.Asked.{read_hex, operation_at, operation_in, rule_for, Sound, with_numbers, asked_of};

use bit_serial::Operation;
use listing::hex::{Hex, read_hex};
use terms::{Rule, Width};

// The operation of a code, or none.
#[derive(Clone, Copy)]
pub enum Found {
    Operation(Operation),
    Nothing,
}

// The rule that was asked for, or none that there is.
#[derive(Clone, Copy)]
pub enum Given {
    Under(Rule),
    Nothing,
}

// An operation on two words of its width under a rule, or nothing that the program does.
#[derive(Clone, Copy)]
pub enum Asked {
    Work {
        operation: Operation,
        rule: Rule,
        b: u32,
        a: u32,
    },
    Nothing,
}

// The number that exactly so many hex digits stand for.
fn read_digits(text: &[u8], digits: usize) -> Hex
    requires { digits ≤ 8 }
    ensures { (result ≡ read_hex digits text.now) × Below (16 ^ digits) result }
{
    if text.len() != digits {
        return Hex::Nothing;
    }
    read_hex(text)
}

// The operation of a code: SMUL, SMUU, SDIV, DMUL, DMUU, DDIV, FMUL, FDIV.
#[tactic(auto, unfolding(crate::specs::Asked::operation_at))]
fn operation_at(code: u32) -> Found
    ensures { result ≡ operation_at code }
{
    match code {
        0x6e => Found::Operation(Operation::Mul(Width::Single)),
        0x76 => Found::Operation(Operation::Muu(Width::Single)),
        0x6f => Found::Operation(Operation::Div(Width::Single)),
        0x2e => Found::Operation(Operation::Mul(Width::Double)),
        0x36 => Found::Operation(Operation::Muu(Width::Double)),
        0x2f => Found::Operation(Operation::Div(Width::Double)),
        0x12 => Found::Operation(Operation::Fmul),
        0x13 => Found::Operation(Operation::Fdiv),
        _ => Found::Nothing,
    }
}

// The operation that a text names.
fn operation_in(code: &[u8]) -> Found
    ensures { result ≡ operation_in (read_hex 2 code.now) }
{
    let read = read_digits(code, 2);
    match read {
        Hex::Number(number) => operation_at(number),
        Hex::Nothing => Found::Nothing,
    }
}

// The rule of a call of so many words, its own name among them, the last of which is the option.
fn rule_for(words: usize, option: &[u8]) -> Given
    ensures { result ≡ rule_for words option.now }
{
    if words == 4 {
        return Given::Under(Rule::Cut);
    }
    if words == 5 {
        if check::same(option, b"--nearest") {
            return Given::Under(Rule::Nearest);
        }
    }
    Given::Nothing
}

// The work on two numbers that were read.
fn with_numbers(operation: Operation, rule: Rule, b: Hex, a: Hex) -> Asked
    requires { Below (2 ^ bits_of (width_of operation)) b × Below (2 ^ bits_of (width_of operation)) a }
    ensures { (result ≡ with_numbers operation rule b a) × Sound result }
{
    match b {
        Hex::Number(x) => match a {
            Hex::Number(y) => Asked::Work {
                operation,
                rule,
                b: x,
                a: y,
            },
            Hex::Nothing => Asked::Nothing,
        },
        Hex::Nothing => Asked::Nothing,
    }
}

// What a call of so many words asks for, its own name among them.
pub fn asked_of(words: usize, code: &[u8], b: &[u8], a: &[u8], option: &[u8]) -> Asked
    ensures { (result ≡ asked_of words code.now b.now a.now option.now)
        × Sound result }
{
    let found = operation_in(code);
    let given = rule_for(words, option);
    match found {
        Found::Operation(operation) => match given {
            Given::Under(rule) => {
                let digits = 2 * operation.width().size();
                let x = read_digits(b, digits);
                let y = read_digits(a, digits);
                with_numbers(operation, rule, x, y)
            }
            Given::Nothing => Asked::Nothing,
        },
        Found::Nothing => Asked::Nothing,
    }
}
