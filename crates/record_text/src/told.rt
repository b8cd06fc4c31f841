// The text of a record: the name of its kind and what stands behind it, parted by single blanks.
ghost use Rattle.std.specs.Prelude.{◌≡◌, cond, [], ◌∷◌, ◌+◌, ◌*◌, ◌≤◌, ◌<◌, length, get_or};
ghost use Rattle.listing.specs.Text.{Adds};
ghost use Rattle.listing.specs.Listing.{blank};
ghost use Rattle.numbers.specs.Little.{four_at};
ghost use Rattle.record_text.specs.Kinds.{numbered_kind};
ghost use Rattle.record_text.specs.Told.{group_text, group_size, groups, spaced, joined, sr_words};
ghost use Rattle.record_text.specs.Told.{command_words, record_text};

use crate::kinds::{COMMAND, Form, add_kind, form_of, kind_of};
use crate::names::name_of;
use listing::add_field;
use listing::hex::add_digits;
use listing::text::{add, add_hex};

// The most bytes of a word.
const WORD: usize = 4;

// A byte of a payload, 0 where there is none.
pub fn byte_at(bytes: &[u8], i: usize) -> u8
    ensures { result ≡ get_or bytes.now i 0 }
{
    if i < bytes.len() {
        return bytes[i];
    }
    0
}

// The number of up to four bytes, the low one first.
fn number_in(bytes: &[u8]) -> u32
    ensures { result ≡ four_at bytes.now 0 }
{
    let a = byte_at(bytes, 0) as u32;
    let b = byte_at(bytes, 1) as u32;
    let c = byte_at(bytes, 2) as u32;
    let d = byte_at(bytes, 3) as u32;
    a + b * 0x100 + c * 0x1_0000 + d * 0x100_0000
}

// How many of so many bytes are told as one word.
fn group_size(count: usize) -> usize
    requires { 0 < count }
    ensures { (result ≡ group_size count) × (0 < result) × (result ≤ 4) × (result ≤ count) }
{
    if 4 <= count {
        return WORD;
    }
    if 2 <= count {
        return 2;
    }
    1
}

// A blank, and bytes as one word.
fn add_group(out: &mut [u8], place: usize, bytes: &[u8]) -> usize
    requires { (0 < length bytes.now) × (place + 3 * length bytes.now ≤ length out.old) }
    ensures adds { Adds (blank ∷ group_text bytes.now) out.old out.new place result }
    ensures upper_bound { result ≤ place + 3 * length bytes.now }
{
    let next = add(out, place, b" ");
    add_digits(out, next, number_in(bytes) as u64, 16, 2 * bytes.len())
}

// The bytes of a push as words, each behind a blank.
fn add_groups(out: &mut [u8], place: usize, bytes: &[u8]) -> usize
    requires { place + 3 * length bytes.now ≤ length out.old }
    ensures adds { Adds (spaced (groups bytes.now)) out.old out.new place result }
    ensures upper_bound { result ≤ place + 3 * length bytes.now }
{
    let mut next = place;
    let mut at = 0;
    while at < bytes.len() {
        let end = at + group_size(bytes.len() - at);
        next = add_group(out, next, &bytes[at..end]);
        at = end;
    }
    next
}

// `sr` where bit 7 of a code is set.
fn add_sr(out: &mut [u8], place: usize, code: u8) -> usize
    requires { place + 3 ≤ length out.old }
    ensures { Adds (spaced (sr_words code)) out.old out.new place result × (result ≤ place + 3) }
{
    if 128 <= code {
        return add(out, place, b" sr");
    }
    place
}

// A command.
fn add_command(out: &mut [u8], place: usize, code: u8) -> usize
    requires { place + 16 ≤ length out.old }
    ensures adds { Adds (joined (command_words code)) out.old out.new place result }
    ensures upper_bound { result ≤ place + 16 }
{
    let name = name_of(code);
    let text = name.text;
    let size = name.size;
    if size == 0 {
        let next = add_kind(out, place, COMMAND);
        return add_hex(out, next, code);
    }
    let next = add(out, place, &text[..size]);
    add_sr(out, next, code)
}

// The text of a record whose kind has this number, with this payload.
pub fn add_told(out: &mut [u8], place: usize, number: u16, payload: &[u8]) -> usize
    requires { place + 32 + 3 * length payload.now ≤ length out.old }
    ensures adds { Adds (record_text (numbered_kind number) payload.now) out.old
        out.new place result }
    ensures upper_bound { result ≤ place + 32 + 3 * length payload.now }
{
    let kind = kind_of(number);
    let form = form_of(kind);
    match form {
        Form::Bytes => {
            let next = add_kind(out, place, kind);
            add_groups(out, next, payload)
        }
        Form::Number => {
            let next = add_kind(out, place, kind);
            add_field(out, next, number_in(payload) as u64)
        }
        Form::Code => add_command(out, place, byte_at(payload, 0)),
        Form::Alone => add_kind(out, place, kind),
        Form::Unknown => place,
    }
}
