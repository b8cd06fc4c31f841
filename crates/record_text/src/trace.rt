// The trace of an input: a line for each record that the run from reset takes, with the bytes of the state that it
// leaves. Each state is that of the run up to the record's end.
ghost use Rattle.std.specs.Prelude.{◌≡◌, ◌+◌, ◌*◌, ◌≤◌, length, take};
ghost use Rattle.io.specs.Counts.{IsPrefixLen};
ghost use Rattle.terms.specs.Limits.{most_input};
ghost use Rattle.listing.specs.Text.{Adds};
ghost use Rattle.record_text.specs.Trace.{line_room, after_text, lines_of, traced_of};

use listing::options::{Asked, asked_of};
use listing::text::{add, add_decimal};
use listing::{REPLY_ROOM, add_data};
use numbers::two;
use terms::{LONG_STATE_BYTES, REPORT_BYTES};

// Room for the trace of any input: a line for every two bytes of it, and the last one.
pub const TRACE_ROOM: usize = 516100;

// The line of the record that a file ends with: its number, and the bytes of the state that the file's run leaves; or
// nothing where that is stopped.
fn add_after(out: &mut [u8], place: usize, mode: u32, rule: u32, number: u64, file: &[u8]) -> usize
    requires { place + line_room ≤ length out.old }
    ensures adds { Adds (after_text mode rule number file.now) out.old out.new
        place result }
    ensures upper_bound { result ≤ place + line_room }
{
    let mut state = [0u8; LONG_STATE_BYTES];
    let mut replies = [0u8; REPLY_ROOM];
    let mut report = [0u8; REPORT_BYTES];
    let refusal = state_bytes::calls::run(mode, rule, &mut state, file, &mut replies, &mut report);
    if refusal != 0 {
        return place;
    }
    let a = add_decimal(out, place, number);
    let b = add_data(out, a, &state);
    add(out, b, b"\n")
}

// The lines of an input: where each record ends is told by its own length.
fn add_lines(out: &mut [u8], mode: u32, rule: u32, input: &[u8]) -> usize
    requires { (length input.now ≤ most_input) × (42 * most_input ≤ length out.old) }
    ensures adds { Adds (lines_of mode rule input.now) out.old out.new 0 result }
    ensures upper_bound { result ≤ 42 * most_input }
{
    let mut place = 0;
    let mut number: u64 = 1;
    let mut at = 0;
    while at + 2 <= input.len() {
        let end = at + 2 + two(input[at], input[at + 1]) as usize;
        if input.len() < end {
            return place;
        }
        place = add_after(out, place, mode, rule, number, &input[..end]);
        number += 1;
        at = end;
    }
    place
}

// The trace of an input for a call of so many words, the program's own name among them, with the first two behind it,
// at the front of the lent text: the answer says how many bytes.
pub fn trace(
    words: usize,
    first: &[u8],
    second: &[u8],
    input: &[u8],
    text: &mut [u8; TRACE_ROOM],
) -> usize
    ensures prefix_len { IsPrefixLen result text.new }
    ensures text_after { take result text.new ≡ traced_of words first.now second.now
        input.now }
{
    let asked = asked_of(words, first, second);
    match asked {
        Asked::Under { mode, rule } => {
            if terms::MOST_INPUT < input.len() {
                return add(text, 0, b"end\n");
            }
            let place = add_lines(text, mode, rule, input);
            add(text, place, b"end\n")
        }
        Asked::Nothing => add(text, 0, b"usage\n"),
    }
}
