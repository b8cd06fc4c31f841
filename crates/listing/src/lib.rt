// What the listing program prints: from the replies and the report of a run to the text of
// document 01, a line for each reply and the last line. The text goes into a lent slice.
#![tactic(auto)]

pub mod hex;
pub mod options;
pub mod text;

ghost use Rattle.std.specs.Prelude.{◌≡◌, ◌+◌, ◌*◌, ◌-◌, ◌≤◌, ◌<◌, length};
ghost use Rattle.listing.specs.Text.{Adds};
ghost use Rattle.listing.specs.Listing.{reply_room, text_room, field, data_text, end_of, whole_size, kind_from};
ghost use Rattle.listing.specs.Listing.{Front, reply_line, lines_of, listing_of};

use crate::text::{add, add_decimal, add_hex};
use numbers::four_at;

// The bytes of replies that the listing program lends.
pub const REPLY_ROOM: usize = 65536;

// A blank and a number.
pub fn add_field(out: &mut [u8], place: usize, n: u64) -> usize
    requires { place + length (field n) ≤ length out.old }
    ensures { Adds (field n) out.old out.new place result }
{
    out[place] = b' ';
    add_decimal(out, place + 1, n)
}

// A blank and two hex digits for each byte of the data.
pub fn add_data(out: &mut [u8], place: usize, bytes: &[u8]) -> usize
    requires { place + length (data_text bytes.now) ≤ length out.old }
    ensures { Adds (data_text bytes.now) out.old out.new place result }
{
    let mut next = place;
    let mut i = 0;
    while i < bytes.len() {
        next = add_hex(out, next, bytes[i]);
        i += 1;
    }
    next
}

// The last line: the run's refusal and the bytes of whole records taken.
fn add_end(out: &mut [u8], place: usize, refusal: u8, taken: u32) -> usize
    requires { place + length (end_of refusal taken) ≤ length out.old }
    ensures { Adds (end_of refusal taken) out.old out.new place result }
{
    let a = add(out, place, b"end");
    let b = add_field(out, a, refusal as u64);
    let c = add_field(out, b, taken as u64);
    out[c] = b'\n';
    c + 1
}

// The bytes of the whole reply at the front of the rest, 0 where there is none.
fn whole_size(rest: &[u8]) -> usize
    ensures { result ≡ whole_size rest.now }
{
    if rest.len() < 5 {
        return 0;
    }
    let head = four_at(rest, 0) as usize;
    let size = 2 + head % 65536;
    if (size < 5) | (rest.len() < size) | (head / 65536 < 128) {
        return 0;
    }
    size
}

// The record's own kind, by the word of its reply.
fn own_kind(word: u32) -> u32
    requires { 128 ≤ word }
    ensures { result ≡ kind_from word }
{
    if word < 32768 {
        word - 128
    } else {
        word - 32768
    }
}

// The line of the reply of this size at the front of the rest.
fn add_reply(out: &mut [u8], place: usize, number: u64, rest: &[u8], size: usize) -> usize
    requires front { Front rest.now size }
    requires rest_in_bounds { place + length (reply_line number rest.now) ≤ length out.old }
    ensures { Adds (reply_line number rest.now) out.old out.new place result }
{
    let kind = own_kind(four_at(rest, 0) / 65536);
    let a = add_decimal(out, place, number);
    let b = add_field(out, a, kind as u64);
    let c = add_field(out, b, rest[4] as u64);
    let d = add_data(out, c, &rest[5..size]);
    out[d] = b'\n';
    d + 1
}

// A line for each whole reply in turn.
fn add_lines(out: &mut [u8], replies: &[u8]) -> usize
    requires { (length replies.now ≤ reply_room) × (4 * length replies.now ≤ length out.old) }
    ensures adds { Adds (lines_of 1 replies.now) out.old out.new 0 result }
    ensures upper_bound { result ≤ 4 * length replies.now }
{
    let mut place = 0;
    let mut number: u64 = 1;
    let mut at = 0;
    while at < replies.len() {
        let size = whole_size(&replies[at..]);
        if size == 0 {
            return place;
        }
        place = add_reply(out, place, number, &replies[at..], size);
        number += 1;
        at += size;
    }
    place
}

// What is printed of a run: a line for each of its replies, and the last line, added at the front of a longer text.
pub fn add_listing(out: &mut [u8], replies: &[u8], refusal: u8, taken: u32) -> usize
    requires { (length replies.now ≤ reply_room) × (text_room ≤ length out.old) }
    ensures adds { Adds (listing_of replies.now refusal taken) out.old out.new 0 result }
    ensures upper_bound { result ≤ text_room }
{
    let place = add_lines(out, replies);
    add_end(out, place, refusal, taken)
}
