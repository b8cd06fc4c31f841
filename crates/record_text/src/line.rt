// A line as a record: its first word names a kind or a command, and the words behind it make the payload.
ghost use Rattle.std.specs.Prelude.{◌≡◌, ◌^◌, ◌≤◌, ◌<◌, length, take};
ghost use Rattle.listing.specs.Text.{Adds};
ghost use Rattle.terms.specs.Limits.{most_payload};
ghost use Rattle.record_text.specs.Line.{record_room, record_bytes, put, said_of};
ghost use Rattle.record_text.specs.Held.{Sized, PutsAs, words_taken, TakesAs, SaysAs, closed_line, values_line};
ghost use Rattle.record_text.specs.Held.{sr_line, kind_line};

use crate::kinds::{Form, form_of, number_of};
use crate::named::{CODES, named};
use crate::values::{Fault, Value, value_of};
use crate::words::next_word;
use listing::text::add;
use numbers::put_word;
use terms::Rule;

// The most bytes of a payload, and of a record.
const MOST_PAYLOAD: usize = 240;

pub const RECORD_ROOM: usize = 244;

// The number of a command's kind.
const COMMAND: u16 = 3;

// Bytes with a value more: how many they are, or why there are none, and at which place of the line.
#[derive(Clone, Copy)]
pub enum Put {
    Added(usize),
    Wrong(Fault, usize),
}

// A payload of so many bytes and the place behind its words; or what is wrong.
#[derive(Clone, Copy)]
pub enum Taken {
    Payload(usize, usize),
    Wrong(Fault, usize),
}

// What a line says: a record of so many bytes, nothing, or what is wrong at which place, counted from 0.
#[derive(Clone, Copy)]
pub enum Line {
    Record(usize),
    Empty,
    Wrong(Fault, usize),
}

// A number of so many bytes behind those that are there.
fn add_number(payload: &mut [u8], count: usize, at: usize, value: u32, size: usize) -> Put
    requires { (length payload.old ≡ most_payload) × (count ≤ most_payload) × (1 ≤ size) × (size ≤ 4) }
    ensures { PutsAs (put (take count payload.old) at (Value.Number value size)) payload.new
        result }
{
    if MOST_PAYLOAD < count + size {
        return Put::Wrong(Fault::ManyBytes, at);
    }
    let mut bytes = [0u8; 4];
    put_word(&mut bytes, value as usize);
    Put::Added(add(payload, count, &bytes[..size]))
}

// A value behind the bytes that are there, of the word at a place.
fn put_value(payload: &mut [u8], count: usize, at: usize, value: Value) -> Put
    requires { (length payload.old ≡ most_payload) × (count ≤ most_payload) × Sized value × (at < 2 ^ 63) }
    ensures { PutsAs (put (take count payload.old) at value) payload.new result }
{
    match value {
        Value::Number(number, size) => add_number(payload, count, at, number, size),
        Value::Wrong(fault, place) => Put::Wrong(fault, at + place),
    }
}

// The payload by the words from a place on: all of them, or one.
fn take_words(
    rule: Rule,
    form: Form,
    kind: u16,
    many: bool,
    line: &[u8],
    from: usize,
    payload: &mut [u8],
) -> Taken
    requires { (length payload.old ≡ most_payload) × (from ≤ length line.now) }
    ensures { TakesAs (words_taken many rule form kind line.now from) line.now
        payload.new result }
{
    let mut count = 0;
    let mut at = from;
    let mut more = true;
    while more {
        let s = next_word(line, at);
        let begin = s.from;
        let end = s.to;
        if begin == end {
            return Taken::Payload(count, at);
        }
        let value = value_of(rule, form, kind, &line[begin..end]);
        let got = put_value(payload, count, begin, value);
        match got {
            Put::Added(n) => count = n,
            Put::Wrong(fault, place) => return Taken::Wrong(fault, place),
        }
        at = end;
        more = many;
    }
    Taken::Payload(count, at)
}

// The bytes of a record.
fn add_record(out: &mut [u8], kind: u16, payload: &[u8]) -> usize
    requires { (length payload.now ≤ most_payload) × (record_room ≤ length out.old) }
    ensures adds { Adds (record_bytes kind payload.now) out.old out.new 0 result }
    ensures upper_bound { result ≤ record_room }
{
    let n = 2 + payload.len();
    let head = [n as u8, 0, (kind % 256) as u8, (kind / 256) as u8];
    let next = add(out, 0, &head);
    add(out, next, payload)
}

// The record, where no word stands from a place on.
fn close_line(line: &[u8], at: usize, kind: u16, payload: &[u8], out: &mut [u8]) -> Line
    requires { (at ≤ length line.now) × (length payload.now ≤ most_payload) × (record_room ≤ length out.old) }
    ensures { SaysAs (closed_line kind payload.now line.now at) out.new result }
{
    let s = next_word(line, at);
    let from = s.from;
    let to = s.to;
    if from == to {
        return Line::Record(add_record(out, kind, payload));
    }
    Line::Wrong(Fault::Behind, from)
}

// A line whose name stands before words, from the place on where the name ends.
fn read_values(
    rule: Rule,
    form: Form,
    kind: u16,
    many: bool,
    line: &[u8],
    at: usize,
    out: &mut [u8],
) -> Line
    requires { (at ≤ length line.now) × (record_room ≤ length out.old) }
    ensures { SaysAs (values_line rule form kind many line.now at) out.new result }
{
    let mut payload = [0u8; MOST_PAYLOAD];
    let taken = take_words(rule, form, kind, many, line, at, &mut payload);
    match taken {
        Taken::Payload(count, end) => {
            if count == 0 {
                return Line::Wrong(Fault::Missing, at);
            }
            close_line(line, end, kind, &payload[..count], out)
        }
        Taken::Wrong(fault, place) => Line::Wrong(fault, place),
    }
}

// A command of this code, from the place on where its name ends.
fn read_named(line: &[u8], at: usize, code: u8, out: &mut [u8]) -> Line
    requires { (at ≤ length line.now) × (code < 128) × (record_room ≤ length out.old) }
    ensures { SaysAs (sr_line code line.now at) out.new result }
{
    let s = next_word(line, at);
    let from = s.from;
    let to = s.to;
    if check::same(&line[from..to], b"sr") {
        let set = [code + 128];
        return close_line(line, to, COMMAND, &set, out);
    }
    let plain = [code];
    close_line(line, at, COMMAND, &plain, out)
}

// A line whose first word names a kind of this number, by the form of what stands behind the name.
fn read_kind(
    rule: Rule,
    form: Form,
    kind: u16,
    line: &[u8],
    from: usize,
    to: usize,
    out: &mut [u8],
) -> Line
    requires { (from ≤ to) × (to ≤ length line.now) × (record_room ≤ length out.old) }
    ensures { SaysAs (kind_line rule form kind line.now from to) out.new result }
{
    match form {
        Form::Bytes => read_values(rule, form, kind, true, line, to, out),
        Form::Number => read_values(rule, form, kind, false, line, to, out),
        Form::Code => read_values(rule, form, kind, false, line, to, out),
        Form::Alone => close_line(line, to, kind, b"", out),
        Form::Unknown => Line::Wrong(Fault::NoName, from),
    }
}

// What a line says; the bytes of a record go to the front of the lent ones.
pub fn read_line(rule: Rule, line: &[u8], out: &mut [u8]) -> Line
    requires { record_room ≤ length out.old }
    ensures { SaysAs (said_of rule line.now) out.new result }
{
    let s = next_word(line, 0);
    let from = s.from;
    let to = s.to;
    if from == to {
        return Line::Empty;
    }
    let place = named(&line[from..to]);
    if place < CODES {
        return read_named(line, to, place, out);
    }
    read_kind(rule, form_of(place), number_of(place), line, from, to, out)
}
