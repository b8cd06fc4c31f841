// The program behind ./records: `records RULE text` reads lines of text from standard input and writes the records that
// they say; `records RULE read` reads a record file and writes a line for each record; `records trace` reads one and
// writes the state after each record, from reset, with `--am9511` and `--nearest` as the listing program has them.
// The last line is `end`; or `wrong`, the number of the line, the place in it and the number of the fault; or
// `stopped`, the bytes before the record that has no words and the refusal. What stands before a last line that is not
// `end` is no answer.
#![tactic(auto)]

ghost use Rattle.std.specs.Prelude.{◌≡◌, ◌⊎◌, ◌+◌, ◌≤◌, ◌<◌, IfOk, length};
ghost use Rattle.terms.specs.Limits.{most_input};

use console::{argument, argument_count, read_full};
use decimals::ends::{line_end, trimmed};
use decimals::read::rule_named;
use numbers::two;
use record_runs::head::read_frame;
use record_text::kinds::{Form, form_of, kind_of};
use record_text::line::{Line, RECORD_ROOM, read_line};
use record_text::record::{TEXT_ROOM, tell_record};
use record_text::trace::{TRACE_ROOM, trace};
use record_text::values::fault_number;
use terms::{Refusal, Rule};

// The most bytes of records, and what is no number of bytes.
const MOST_INPUT: usize = 12288;

const STOPPED: usize = 20000;

// The number of the fault of a file that is too long.
const TOO_LONG: u8 = 15;

// Writes a blank and a number.
fn write_field(out: &impl Print, n: u64) -> std::io::Result<()> {
    let mut digits = [0u8; 20];
    let k = io::decimal(n, &mut digits);
    out.write_all(b" ")?;
    out.write_all(&digits[..k])
}

// Writes which line is wrong, from which place of it, counted from 0, and why.
fn write_wrong(out: &impl Print, number: u64, place: usize, fault: u8) -> std::io::Result<()> {
    out.write_all(b"\nwrong")?;
    write_field(out, number)?;
    write_field(out, place as u64)?;
    write_field(out, fault as u64)?;
    out.write_all(b"\n")
}

// Writes before how many bytes a file of records stops, and why.
fn write_stopped(out: &impl Print, at: usize, refusal: u8) -> std::io::Result<()> {
    out.write_all(b"\nstopped")?;
    write_field(out, at as u64)?;
    write_field(out, refusal as u64)?;
    out.write_all(b"\n")
}

// Writes the record of a line, and answers how many bytes there are with it.
fn write_record(
    out: &impl Print,
    rule: Rule,
    line: &[u8],
    number: u64,
    size: usize,
) -> std::io::Result<usize>
    requires { size ≤ 12288 }
    ensures { IfOk result (λ n. n ≤ 20000) }
{
    let mut record = [0u8; RECORD_ROOM];
    let said = read_line(rule, line, &mut record);
    match said {
        Line::Record(n) => {
            out.write_all(&record[..n])?;
            Ok(size + n)
        }
        Line::Empty => Ok(size),
        Line::Wrong(fault, place) => {
            write_wrong(out, number, place, fault_number(fault))?;
            Ok(STOPPED)
        }
    }
}

// Writes the record of each line.
fn write_records(out: &impl Print, rule: Rule, text: &[u8]) -> std::io::Result<()> {
    let mut number: u64 = 0;
    let mut size = 0;
    let mut at = 0;
    while at < text.len() {
        number += 1;
        let end = line_end(text, at);
        size = write_record(out, rule, &text[at..trimmed(text, at, end)], number, size)?;
        if size == STOPPED {
            return Ok(());
        }
        if MOST_INPUT < size {
            return write_wrong(out, number, 0, TOO_LONG);
        }
        at = end + 1;
    }
    out.write_all(b"\nend\n")
}

// The refusal of a record that has no words: 5 where there is no such kind, else 7.
fn refusal_of(number: u16) -> u8 {
    let form = form_of(kind_of(number));
    match form {
        Form::Bytes => 7,
        Form::Number => 7,
        Form::Code => 7,
        Form::Alone => 7,
        Form::Unknown => 5,
    }
}

// Writes the line of the record from one place to another, and answers the other one; where it has none it writes why,
// and answers what is no place.
fn write_framed(out: &impl Print, input: &[u8], at: usize, end: usize) -> std::io::Result<usize>
    requires { (at + 4 ≤ end) × (end ≤ at + 244) × (end ≤ length input.now) }
    ensures { IfOk result (λ n. (n ≡ 20000) ⊎ (n ≡ end)) }
{
    let mut text = [0u8; TEXT_ROOM];
    let n = tell_record(&input[at..end], &mut text);
    if n == 0 {
        write_stopped(out, at, refusal_of(two(input[at + 2], input[at + 3])))?;
        return Ok(STOPPED);
    }
    out.write_all(&text[..n])?;
    out.write_all(b"\n")?;
    Ok(end)
}

// Writes the line of the record at a place, and answers where the next one begins; where it has none it writes why, and
// answers what is no place.
fn write_next(out: &impl Print, input: &[u8], at: usize) -> std::io::Result<usize>
    requires { (at ≤ length input.now) × (length input.now ≤ most_input) }
    ensures { IfOk result (λ n. (n ≡ 20000) ⊎ ((at < n) × (n ≤ length input.now))) }
{
    let frame = read_frame(&input[at..], at as u32, input.len() as u32);
    match frame {
        Ok(n) => write_framed(out, input, at, at + 4 + n as usize),
        Err(refusal) => {
            write_stopped(out, at, terms::number(refusal))?;
            Ok(STOPPED)
        }
    }
}

// Writes the line of each record, of a file that is not too long.
fn write_texts(out: &impl Print, input: &[u8]) -> std::io::Result<()>
    requires { length input.now ≤ most_input }
{
    let mut at = 0;
    while at < input.len() {
        at = write_next(out, input, at)?;
        if at == STOPPED {
            return Ok(());
        }
    }
    out.write_all(b"\nend\n")
}

// Writes the trace of a file, by the two words behind `trace` of a call of so many.
fn write_trace(
    out: &impl Print,
    words: usize,
    first: &[u8],
    second: &[u8],
    input: &[u8],
) -> std::io::Result<()> {
    if words == 0 {
        return Ok(());
    }
    let mut text = [0u8; TRACE_ROOM];
    let n = trace(words - 1, first, second, input, &mut text);
    out.write_all(&text[..n])
}

// Writes the line of each record, or that the file is too long.
fn write_lines(out: &impl Print, input: &[u8]) -> std::io::Result<()> {
    if MOST_INPUT < input.len() {
        return write_stopped(out, 0, terms::number(Refusal::InputTooLong));
    }
    write_texts(out, input)
}

fn main(rt: HostRuntime) -> std::io::Result<()> {
    let mut name = [0u8; 16];
    let n = argument(&rt, 1, &mut name);
    let mut what = [0u8; 16];
    let m = argument(&rt, 2, &mut what);
    let mut third = [0u8; 16];
    let k = argument(&rt, 3, &mut third);
    let mut input = [0u8; 262144];
    let size = read_full(&mut rt.stdin(), &mut input)?;
    if check::same(&name[..n], b"trace") {
        write_trace(
            &rt,
            argument_count(&rt),
            &what[..m],
            &third[..k],
            &input[..size],
        )
    } else if check::same(&what[..m], b"read") {
        write_lines(&rt, &input[..size])
    } else {
        write_records(&rt, rule_named(&name[..n]), &input[..size])
    }
}
