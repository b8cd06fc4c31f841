// The value of a word behind a name: bytes of a push, a number, a code; or why it is none, at which place of the word.
ghost use Rattle.std.specs.Prelude.{◌≡◌, ◌^◌, ◌≤◌, ◌<◌, length};
ghost use Rattle.record_text.specs.Values.{decimal_fault, refused_fault, size_for, range_of, ranged};
ghost use Rattle.record_text.specs.Held.{Sized};
ghost use Rattle.record_text.specs.Values.{decimal_of, bytes_of, number_for, code_of, value_of};

use crate::kinds::Form;
use decimals::read::{Reading, Scanned, read, scan};
use listing::hex::{Hex, read_hex};
use terms::{Refusal, Rule};

// Why a line is no record.
#[derive(Clone, Copy)]
pub enum Fault {
    NoName,
    Missing,
    NoDigit,
    NoPoint,
    ManyDigits,
    ManyPlaces,
    NoEnd,
    TooLarge,
    TooSmall,
    ManyBytes,
    NoNumber,
    OutOfRange,
    NoCode,
    Behind,
}

// The number by which ./records knows a fault.
pub fn fault_number(fault: Fault) -> u8 {
    match fault {
        Fault::NoName => 1,
        Fault::Missing => 2,
        Fault::NoDigit => 3,
        Fault::NoPoint => 4,
        Fault::ManyDigits => 5,
        Fault::ManyPlaces => 6,
        Fault::NoEnd => 7,
        Fault::TooLarge => 8,
        Fault::TooSmall => 9,
        Fault::ManyBytes => 10,
        Fault::NoNumber => 11,
        Fault::OutOfRange => 12,
        Fault::NoCode => 13,
        Fault::Behind => 14,
    }
}

// A number that goes into so many bytes; or why there is none, and the place in the word, counted from 0.
#[derive(Clone, Copy)]
pub enum Value {
    Number(u32, usize),
    Wrong(Fault, usize),
}

// The least and the most that a number may be, and its bytes.
#[derive(Clone, Copy)]
pub struct Range {
    pub least: u64,
    pub most: u64,
    pub size: usize,
}

// The fault of a decimal.
fn decimal_fault(fault: decimals::read::Fault) -> Fault
    ensures { result ≡ decimal_fault fault }
{
    match fault {
        decimals::read::Fault::NoDigit => Fault::NoDigit,
        decimals::read::Fault::NoPoint => Fault::NoPoint,
        decimals::read::Fault::ManyDigits => Fault::ManyDigits,
        decimals::read::Fault::ManyPlaces => Fault::ManyPlaces,
        decimals::read::Fault::NoEnd => Fault::NoEnd,
    }
}

// The fault of a decimal that has no word: refusal 12, or 11.
fn refused_fault(refusal: Refusal) -> Fault
    ensures { result ≡ refused_fault refusal }
{
    if terms::number(refusal) == 12 {
        return Fault::TooSmall;
    }
    Fault::TooLarge
}

// A decimal as a float word.
fn decimal_value(rule: Rule, text: &[u8]) -> Value
    ensures { (result ≡ decimal_of rule text.now) × Sized result }
{
    let reading = read(rule, text);
    match reading {
        Reading::Exact(word) => Value::Number(word, 4),
        Reading::Rounded(word) => Value::Number(word, 4),
        Reading::Refused(refusal) => Value::Wrong(refused_fault(refusal), 0),
        Reading::Wrong(fault, place) => Value::Wrong(decimal_fault(fault), place),
    }
}

// The bytes of a word of so many hex digits, 0 where no word has so many.
fn size_for(digits: usize) -> usize
    ensures { (result ≡ size_for digits) × (result ≤ 4) }
{
    match digits {
        2 => 1,
        4 => 2,
        8 => 4,
        _ => 0,
    }
}

// The bytes of a push: hex digits, or a decimal.
fn byte_value(rule: Rule, text: &[u8]) -> Value
    ensures { (result ≡ bytes_of rule text.now) × Sized result }
{
    let size = size_for(text.len());
    if size == 0 {
        return decimal_value(rule, text);
    }
    let hex = read_hex(text);
    match hex {
        Hex::Number(value) => Value::Number(value, size),
        Hex::Nothing => decimal_value(rule, text),
    }
}

// The numbers that may stand behind the name of a kind of this number.
fn range_of(number: u16) -> Range
    ensures { (result ≡ range_of number) × (result.most < 2 ^ 32) × (1 ≤ result.size) × (result.size ≤ 4) }
{
    match number {
        2 => Range {
            least: 1,
            most: 240,
            size: 1,
        },
        256 => Range {
            least: 0,
            most: 0xFFFF_FFFF,
            size: 4,
        },
        _ => Range {
            least: 0,
            most: 255,
            size: 1,
        },
    }
}

// A number as the value of a word behind the name of a kind of this number.
fn ranged_value(kind: u16, number: u64) -> Value
    ensures { (result ≡ ranged (range_of kind) number) × Sized result }
{
    let range = range_of(kind);
    if number < range.least {
        return Value::Wrong(Fault::OutOfRange, 0);
    }
    if range.most < number {
        return Value::Wrong(Fault::OutOfRange, 0);
    }
    Value::Number(number as u32, range.size)
}

// A number of decimal digits behind the name of a kind of this number.
fn number_value(kind: u16, text: &[u8]) -> Value
    ensures { (result ≡ number_for kind text.now) × Sized result }
{
    let scanned = scan(text);
    match scanned {
        Scanned::Digits { value, count } => {
            if count == text.len() {
                return ranged_value(kind, value);
            }
            Value::Wrong(Fault::NoNumber, count)
        }
        Scanned::TooMany(place) => Value::Wrong(Fault::OutOfRange, place),
    }
}

// A code of two hex digits.
fn code_value(text: &[u8]) -> Value
    ensures { (result ≡ code_of text.now) × Sized result }
{
    if text.len() != 2 {
        return Value::Wrong(Fault::NoCode, 0);
    }
    let hex = read_hex(text);
    match hex {
        Hex::Number(value) => Value::Number(value, 1),
        Hex::Nothing => Value::Wrong(Fault::NoCode, 0),
    }
}

// The value of a word behind the name of a kind of this number, by the form of what stands there.
pub fn value_of(rule: Rule, form: Form, kind: u16, text: &[u8]) -> Value
    ensures { (result ≡ value_of rule form kind text.now) × Sized result }
{
    match form {
        Form::Bytes => byte_value(rule, text),
        Form::Number => number_value(kind, text),
        Form::Code => code_value(text),
        Form::Alone => Value::Wrong(Fault::Behind, 0),
        Form::Unknown => Value::Wrong(Fault::NoName, 0),
    }
}
