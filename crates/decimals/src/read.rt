// A decimal text as a word: an optional minus sign, digits, a point, digits, and nothing else. The digits before the
// point, and those behind it, are a number below 10^19 each, zeros before them not counted; at most 27 stand behind it.
ghost use Rattle.std.specs.Prelude.{◌≡◌, ◌+◌, ◌-◌, ◌^◌, ◌≤◌, ◌<◌, length, drop};
ghost use Rattle.decimals.specs.Read.{is_digit, run_limit, scan_of, Scans, places_from, point_from, whole_from};
ghost use Rattle.decimals.specs.Read.{has_minus, parse_of, Sound, answered, Placed, read_of, rule_named};

use crate::bring::{Brought, bring};
use terms::{Refusal, Rule};

// A number below this may have one digit more.
const ROOM: u64 = 1_000_000_000_000_000_000;

const MOST_PLACES: usize = 27;

// The characters of a minus sign and of a point.
const MINUS: u8 = 45;

const POINT: u8 = 46;

// Why a text is no decimal: a digit is wanted, a point is wanted, there are too many digits, there are too many
// places, or something stands behind the number.
#[derive(Clone, Copy)]
pub enum Fault {
    NoDigit,
    NoPoint,
    ManyDigits,
    ManyPlaces,
    NoEnd,
}

// The digits at the front of a text: their number and how many they are, or the place of one too many.
#[derive(Clone, Copy)]
pub enum Scanned {
    Digits { value: u64, count: usize },
    TooMany(usize),
}

// A decimal, or why a text is none and at which place, counted from 0.
#[derive(Clone, Copy)]
pub enum Parsed {
    Decimal {
        neg: bool,
        whole: u64,
        fraction: u64,
        places: u32,
    },
    Wrong(Fault, usize),
}

// A text as a word: exact, brought to 24 bits by the rule, refused, or no decimal.
#[derive(Clone, Copy)]
pub enum Reading {
    Exact(u32),
    Rounded(u32),
    Refused(Refusal),
    Wrong(Fault, usize),
}

// Whether a character is a digit.
fn is_digit(c: u8) -> bool
    ensures { result ≡ is_digit c }
{
    if c < 48 {
        return false;
    }
    c < 58
}

// The digits at the front of a text.
pub fn scan(text: &[u8]) -> Scanned
    ensures { (result ≡ scan_of text.now) × Scans (length text.now) result }
{
    let mut value: u64 = 0;
    let mut i = 0;
    while i < text.len() {
        let c = text[i];
        if !is_digit(c) {
            return Scanned::Digits { value, count: i };
        }
        if ROOM <= value {
            return Scanned::TooMany(i);
        }
        value = value * 10 + (c - 48) as u64;
        i += 1;
    }
    Scanned::Digits { value, count: i }
}

// The digits at a place.
fn scan_at(text: &[u8], at: usize) -> Scanned
    requires { at ≤ length text.now }
    ensures { (result ≡ scan_of (drop at text.now)) × Scans (length text.now - at) result }
{
    scan(&text[at..])
}

// The decimal of digits behind the point from a place on, of a text of so many characters.
fn places_of(length: usize, neg: bool, whole: u64, at: usize, value: u64, count: usize) -> Parsed
    requires { (value < 10 ^ count) × (value < run_limit) × (at + count ≤ length) × (length < 2 ^ 63) }
    ensures { (result ≡ places_from length neg whole at (Scanned.Digits value count)) × Sound result }
{
    if count == 0 {
        return Parsed::Wrong(Fault::NoDigit, at);
    }
    if MOST_PLACES < count {
        return Parsed::Wrong(Fault::ManyPlaces, at + MOST_PLACES);
    }
    if at + count < length {
        return Parsed::Wrong(Fault::NoEnd, at + count);
    }
    Parsed::Decimal {
        neg,
        whole,
        fraction: value,
        places: count as u32,
    }
}

// What stands behind a point that is at the place before this one.
fn places_at(text: &[u8], neg: bool, whole: u64, at: usize) -> Parsed
    requires { at ≤ length text.now }
    ensures value { result ≡ places_from (length text.now) neg whole at (scan_of (drop at text.now)) }
    ensures sound { Sound result }
{
    let scanned = scan_at(text, at);
    match scanned {
        Scanned::Digits { value, count } => places_of(text.len(), neg, whole, at, value, count),
        Scanned::TooMany(place) => Parsed::Wrong(Fault::ManyDigits, at + place),
    }
}

// The point at a place, and what stands behind it.
fn point_at(text: &[u8], neg: bool, whole: u64, at: usize) -> Parsed
    requires { at ≤ length text.now }
    ensures { (result ≡ point_from neg whole at text.now) × Sound result }
{
    if at < text.len() {
        if text[at] == POINT {
            return places_at(text, neg, whole, at + 1);
        }
        return Parsed::Wrong(Fault::NoPoint, at);
    }
    Parsed::Wrong(Fault::NoPoint, at)
}

// The digits before the point from a place on, and what stands behind them.
fn whole_of(text: &[u8], neg: bool, at: usize, value: u64, count: usize) -> Parsed
    requires { at + count ≤ length text.now }
    ensures { (result ≡ whole_from neg at text.now (Scanned.Digits value count)) × Sound result }
{
    if count == 0 {
        return Parsed::Wrong(Fault::NoDigit, at);
    }
    point_at(text, neg, value, at + count)
}

// The same, where the digits are still to be found.
fn whole_at(text: &[u8], neg: bool, at: usize) -> Parsed
    requires { at ≤ length text.now }
    ensures { (result ≡ whole_from neg at text.now (scan_of (drop at text.now))) × Sound result }
{
    let scanned = scan_at(text, at);
    match scanned {
        Scanned::Digits { value, count } => whole_of(text, neg, at, value, count),
        Scanned::TooMany(place) => Parsed::Wrong(Fault::ManyDigits, at + place),
    }
}

// Whether a text begins with a minus sign.
fn has_minus(text: &[u8]) -> bool
    ensures { result ≡ has_minus text.now }
{
    if text.len() == 0 {
        return false;
    }
    text[0] == MINUS
}

// The decimal of a text.
pub fn parse(text: &[u8]) -> Parsed
    ensures { (result ≡ parse_of text.now) × Sound result }
{
    if has_minus(text) {
        return whole_at(text, true, 1);
    }
    whole_at(text, false, 0)
}

// What was brought to a word, as a reading.
fn answer(brought: Brought) -> Reading
    ensures { (result ≡ answered brought) × Placed result }
{
    match brought {
        Brought::Exact(word) => Reading::Exact(word),
        Brought::Rounded(word) => Reading::Rounded(word),
        Brought::Refused(refusal) => Reading::Refused(refusal),
    }
}

// The word of a text by a rule.
pub fn read(rule: Rule, text: &[u8]) -> Reading
    ensures { (result ≡ read_of rule text.now) × Placed result }
{
    let parsed = parse(text);
    match parsed {
        Parsed::Decimal {
            neg,
            whole,
            fraction,
            places,
        } => answer(bring(rule, neg, whole, fraction, places)),
        Parsed::Wrong(fault, place) => Reading::Wrong(fault, place),
    }
}

// The rule that a word names: `nearest`, else the cut.
pub fn rule_named(word: &[u8]) -> Rule
    ensures { result ≡ rule_named word.now }
{
    if check::same(word, b"nearest") {
        return Rule::Nearest;
    }
    Rule::Cut
}
