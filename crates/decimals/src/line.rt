// What is told of one text: a line `WORD DECIMAL` for a word of eight hex digits and for a decimal, with a mark where
// the decimal is not the word's value; `refused N` or `wrong PLACE WHAT` where there is no word. The end of a line, a
// mark or what is wanted, is a part of one table.
ghost use Rattle.std.specs.Prelude.{◌≡◌, cond, [], ◌∷◌, ◌++◌, ◌+◌, ◌*◌, ◌^◌, ◌≤◌, ◌<◌, length, take};
ghost use Rattle.io.specs.Counts.{IsPrefixLen};
ghost use Rattle.listing.specs.Text.{Adds};
ghost use Rattle.listing.specs.Listing.{field};
ghost use Rattle.float.specs.Word.{size88};
ghost use Rattle.decimals.specs.Magnitude.{size_in, Fits};
ghost use Rattle.decimals.specs.Exact.{minus};
ghost use Rattle.decimals.specs.Short.{Brief};
ghost use Rattle.decimals.specs.Line.{head_text, decimal_text, rule_mark, mark_of, brief_of, value_text, value_mark};
ghost use Rattle.decimals.specs.Line.{word_line, fault_text, Tellable, read_line, word_in, reading_in, answer_line};
ghost use Rattle.decimals.specs.Line.{end_in, EndFits, EndOf};

use crate::bring::{Brought, bring};
use crate::exact::add_exact;
use crate::magnitude::{Magnitude, of_word};
use crate::read::{Fault, Reading, read};
use crate::short::{Short, shortest};
use float::word::{is_negative, is_proper};
use listing::add_field;
use listing::hex::{Hex, add_digits, read_hex};
use listing::text::{add, add_decimal};
use terms::{Refusal, Rule};

// Room for the line of any text.
pub const LINE_ROOM: usize = 256;
// The longest text that is looked at.
const MOST_TEXT: usize = 64;

// The ends of lines in turn: none, the marks of a word, what is wanted or too much in a text that is no decimal.
const ENDS: [u8; 60] = *b"\n cut\n rounded\n improper\n digit\n point\n digits\n places\n end\n";

// Where one of them begins and ends.
#[derive(Clone, Copy)]
pub struct End {
    pub from: usize,
    pub to: usize,
}

// The end behind a decimal that a rule brought to another value.
fn rule_end(rule: Rule) -> End
    ensures { EndOf (rule_mark rule) result }
{
    match rule {
        Rule::Cut => End { from: 1, to: 6 },
        Rule::Nearest => End { from: 6, to: 15 },
    }
}

// The end behind what was brought to a word.
fn mark_end(rule: Rule, brought: Brought) -> End
    ensures { EndOf (mark_of rule brought) result }
{
    match brought {
        Brought::Exact(_) => End { from: 0, to: 1 },
        Brought::Rounded(_) => rule_end(rule),
        Brought::Refused(_) => End { from: 0, to: 1 },
    }
}

// The end behind the place of a fault.
fn fault_end(fault: Fault) -> End
    ensures { EndOf (fault_text fault) result }
{
    match fault {
        Fault::NoDigit => End { from: 25, to: 32 },
        Fault::NoPoint => End { from: 32, to: 39 },
        Fault::ManyDigits => End { from: 39, to: 47 },
        Fault::ManyPlaces => End { from: 47, to: 55 },
        Fault::NoEnd => End { from: 55, to: 60 },
    }
}

// The end of a line.
fn add_end(out: &mut [u8], place: usize, end: End) -> usize
    requires { EndFits end × (place + 10 ≤ length out.old) }
    ensures { Adds (end_in end) out.old out.new place result }
{
    let from = end.from;
    let to = end.to;
    add(out, place, &ENDS[from..to])
}

// A minus sign or none.
fn add_minus(out: &mut [u8], place: usize, neg: bool) -> usize
    requires { place + 1 ≤ length out.old }
    ensures { Adds (cond neg (minus ∷ []) []) out.old out.new place result × (result ≤ place + 1) }
{
    if neg {
        return add(out, place, b"-");
    }
    place
}

// A decimal of so many places.
fn add_places(
    out: &mut [u8],
    place: usize,
    neg: bool,
    whole: u64,
    fraction: u64,
    places: u32,
) -> usize
    requires { (places ≤ 27) × (place + 49 ≤ length out.old) }
    ensures adds { Adds (decimal_text neg whole fraction places) out.old out.new place result }
    ensures upper_bound { result ≤ place + 49 }
{
    let a = add_minus(out, place, neg);
    let b = add_decimal(out, a, whole);
    let c = add(out, b, b".");
    add_digits(out, c, fraction, 10, places as usize)
}

// The short decimal of a word of this magnitude, none where the exact value is asked or the word is not proper.
fn brief_of(rule: Rule, exact: bool, word: u32, m: Magnitude) -> Short
    requires { (size_in m ≡ size88 word) × Fits m }
    ensures { (result ≡ brief_of rule exact word) × Brief result }
{
    if exact {
        return Short::Nothing;
    }
    if !is_proper(word) {
        return Short::Nothing;
    }
    let whole = m.whole;
    let rest = m.rest;
    shortest(
        rule,
        word,
        whole.high * 0x1_0000_0000_0000 + whole.low,
        rest,
    )
}

// The end behind the value of a word: the mark of what its short decimal is brought to, or that it is not proper.
fn value_end(rule: Rule, word: u32, short: Short) -> End
    requires { Brief short }
    ensures { EndOf (value_mark rule word short) result }
{
    match short {
        Short::Decimal {
            whole,
            fraction,
            places,
        } => mark_end(
            rule,
            bring(rule, is_negative(word), whole, fraction, places),
        ),
        Short::Nothing => {
            if is_proper(word) {
                return End { from: 0, to: 1 };
            }
            End { from: 15, to: 25 }
        }
    }
}

// The value of a word as a short decimal, or the exact one where there is none.
fn add_value(out: &mut [u8], place: usize, word: u32, m: Magnitude, short: Short) -> usize
    requires { Brief short × (size_in m ≡ size88 word) × Fits m × (place + 122 ≤ length out.old) }
    ensures { Adds (value_text word short) out.old out.new place result × (result ≤ place + 122) }
{
    match short {
        Short::Decimal {
            whole,
            fraction,
            places,
        } => add_places(out, place, is_negative(word), whole, fraction, places),
        Short::Nothing => add_exact(out, place, is_negative(word), m),
    }
}

// A word at the head of a line.
fn add_head(out: &mut [u8], word: u32) -> usize
    requires { 9 ≤ length out.old }
    ensures { Adds (head_text word) out.old out.new 0 result × (result ≡ 9) }
{
    let a = add_digits(out, 0, word as u64, 16, 8);
    add(out, a, b" ")
}

// The line of a word.
fn add_word_line(out: &mut [u8], rule: Rule, exact: bool, word: u32) -> usize
    requires { 256 ≤ length out.old }
    ensures { Adds (word_line rule exact word) out.old out.new 0 result }
{
    let m = of_word(word);
    let short = brief_of(rule, exact, word, m);
    let end = value_end(rule, word, short);
    let a = add_head(out, word);
    let b = add_value(out, a, word, m, short);
    add_end(out, b, end)
}

// The line of a decimal that was brought to the word.
fn add_brought_line(out: &mut [u8], word: u32, text: &[u8], end: End) -> usize
    requires { EndFits end × (length text.now ≤ 64) × (256 ≤ length out.old) }
    ensures { Adds (head_text word ++ (text.now ++ end_in end)) out.old out.new 0 result }
{
    let a = add_head(out, word);
    let b = add(out, a, text);
    add_end(out, b, end)
}

// A line that begins with what it tells, and a number.
fn add_noted(out: &mut [u8], head: &[u8], n: u64, end: End) -> usize
    requires { EndFits end × (length head.now ≤ 8) × (256 ≤ length out.old) }
    ensures { Adds (head.now ++ (field n ++ end_in end)) out.old out.new 0 result }
{
    let a = add(out, 0, head);
    let b = add_field(out, a, n);
    add_end(out, b, end)
}

// The line of a reading.
fn add_read_line(out: &mut [u8], rule: Rule, text: &[u8], reading: Reading) -> usize
    requires { Tellable (length text.now) reading × (256 ≤ length out.old) }
    ensures { Adds (read_line rule text.now reading) out.old out.new 0 result }
{
    match reading {
        Reading::Exact(word) => add_brought_line(out, word, text, End { from: 0, to: 1 }),
        Reading::Rounded(word) => add_brought_line(out, word, text, rule_end(rule)),
        Reading::Refused(refusal) => add_noted(
            out,
            b"refused",
            terms::number(refusal) as u64,
            End { from: 0, to: 1 },
        ),
        Reading::Wrong(fault, at) => add_noted(out, b"wrong", at as u64 + 1, fault_end(fault)),
    }
}

// The word of a text of eight hex digits.
fn word_in(text: &[u8]) -> Hex
    ensures { result ≡ word_in text.now }
{
    if text.len() == 8 {
        return read_hex(text);
    }
    Hex::Nothing
}

// The reading of a text, none of one that is too long.
fn reading_in(rule: Rule, text: &[u8]) -> Reading
    ensures { (result ≡ reading_in rule text.now) × Tellable (length text.now) result }
{
    if MOST_TEXT < text.len() {
        return Reading::Wrong(Fault::ManyDigits, MOST_TEXT);
    }
    read(rule, text)
}

// The line of a text, at the front of the lent one: the answer says how many bytes.
pub fn tell(rule: Rule, exact: bool, text: &[u8], out: &mut [u8; LINE_ROOM]) -> usize
    ensures prefix_len { IsPrefixLen result out.new }
    ensures out_after { take result out.new ≡ answer_line rule exact text.now }
{
    let hex = word_in(text);
    match hex {
        Hex::Number(word) => add_word_line(out, rule, exact, word),
        Hex::Nothing => {
            let reading = reading_in(rule, text);
            add_read_line(out, rule, text, reading)
        }
    }
}
