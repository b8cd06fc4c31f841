// What the program of the sheets prints for an input: the run from reset with no sheets, the listing of its replies,
// a line for each closed sheet, the open one, and the figures. The program only reads, calls this and writes.
#![tactic(auto)]

ghost use Rattle.std.specs.Prelude.{◌≡◌, ◌+◌, ◌*◌, ◌≤◌, min, length, take};
ghost use Rattle.io.specs.Counts.{IsPrefixLen};
ghost use Rattle.sheet_bytes.specs.Ledger.{sheets_bytes, most_sheets, place_bytes, closed_in, lines_of};
ghost use Rattle.sheet_figures.specs.Telling.{figures_bytes};
ghost use Rattle.listing.specs.Text.{Adds};
ghost use Rattle.listing.specs.Listing.{text_room};
ghost use Rattle.sheet_text.specs.Printout.{line_room, open_room, figures_room, rest_room, word_from, words_text};
ghost use Rattle.sheet_text.specs.Printout.{sheet_text, sheets_text, open_text, figure_text, counts_text, figures_text};
ghost use Rattle.sheet_text.specs.Printout.{printed_of, rest_text, printout_under, told_of};

use listing::options::{Asked, asked_of};
use listing::text::{add, digit};
use listing::{REPLY_ROOM, add_field, add_listing};
use numbers::four_at;
use sheet_bytes::bytes::{PLACE_BYTES, SERIAL_AT, SHEETS_BYTES, is_open};
use sheet_figures::FIGURES_BYTES;
use terms::{REPORT_BYTES, STATE_BYTES};

// Room for any text: the listing's, 64 bytes for each of 64 sheets, 32 for the open one, 192 for the figures.
pub const PRINT_ROOM: usize = 266510;

// A blank, and the word at a place of the bytes as eight hex digits; its bytes come the low one first.
fn add_word(out: &mut [u8], place: usize, bytes: &[u8], at: usize) -> usize
    requires { (at + 4 ≤ length bytes.now) × (place + 9 ≤ length out.old) }
    ensures { Adds (word_from bytes.now at) out.old out.new place result }
{
    let a = bytes[at];
    let b = bytes[at + 1];
    let c = bytes[at + 2];
    let d = bytes[at + 3];
    let text = [
        32,
        digit(d / 16),
        digit(d % 16),
        digit(c / 16),
        digit(c % 16),
        digit(b / 16),
        digit(b % 16),
        digit(a / 16),
        digit(a % 16),
    ];
    add(out, place, &text)
}

// The four words of a closed sheet.
fn add_words(out: &mut [u8], place: usize, line: &[u8]) -> usize
    requires { (length line.now ≡ place_bytes) × (place + 36 ≤ length out.old) }
    ensures { Adds (words_text line.now) out.old out.new place result }
{
    let a = add_word(out, place, line, 4);
    let b = add_word(out, a, line, 8);
    let c = add_word(out, b, line, 12);
    add_word(out, c, line, 16)
}

// The line of a closed sheet.
fn add_sheet(out: &mut [u8], place: usize, line: &[u8]) -> usize
    requires { (length line.now ≡ place_bytes) × (place + line_room ≤ length out.old) }
    ensures adds { Adds (sheet_text line.now) out.old out.new place result }
    ensures upper_bound { result ≤ place + line_room }
{
    let a = add(out, place, b"sheet");
    let b = add_field(out, a, four_at(line, 0) as u64);
    let c = add_words(out, b, line);
    add(out, c, b"\n")
}

// A line for each closed sheet, in order.
fn add_sheets(out: &mut [u8], place: usize, sheets: &[u8]) -> usize
    requires { (length sheets.now ≡ sheets_bytes) × (closed_in sheets.now ≤ most_sheets)
        × (place + line_room * most_sheets ≤ length out.old) }
    ensures adds { Adds (sheets_text (lines_of sheets.now)) out.old out.new place result }
    ensures upper_bound { result ≤ place + line_room * most_sheets }
{
    let count = sheets[0] as usize;
    let mut next = place;
    let mut i = 0;
    while i < count {
        let at = 1 + PLACE_BYTES * i;
        let end = at + PLACE_BYTES;
        next = add_sheet(out, next, &sheets[at..end]);
        i += 1;
    }
    next
}

// The line of the open sheet, if one is.
fn add_open(out: &mut [u8], place: usize, sheets: &[u8]) -> usize
    requires { (length sheets.now ≡ sheets_bytes) × (place + open_room ≤ length out.old) }
    ensures adds { Adds (open_text sheets.now) out.old out.new place result }
    ensures upper_bound { result ≤ place + open_room }
{
    if !is_open(sheets) {
        return place;
    }
    let a = add(out, place, b"open");
    let b = add_field(out, a, four_at(sheets, SERIAL_AT) as u64);
    add(out, b, b"\n")
}

// A name and a count.
fn add_figure(out: &mut [u8], place: usize, name: &[u8], n: u8) -> usize
    requires { place + length name.now + 22 ≤ length out.old }
    ensures adds { Adds (figure_text name.now n) out.old out.new place result }
    ensures upper_bound { result ≤ place + length name.now + 22 }
{
    let a = add(out, place, name);
    let b = add_field(out, a, n as u64);
    add(out, b, b"\n")
}

// The four counts.
fn add_counts(out: &mut [u8], place: usize, figures: &[u8]) -> usize
    requires { (length figures.now ≡ figures_bytes) × (place + 116 ≤ length out.old) }
    ensures adds { Adds (counts_text figures.now) out.old out.new place result }
    ensures upper_bound { result ≤ place + 116 }
{
    let a = add_figure(out, place, b"lines", figures[0]);
    let b = add_figure(out, a, b"serials", figures[1]);
    let c = add_figure(out, b, b"repeated", figures[2]);
    add_figure(out, c, b"improper", figures[3])
}

// The four counts, then the sum.
fn add_figures(out: &mut [u8], place: usize, figures: &[u8]) -> usize
    requires { (length figures.now ≡ figures_bytes) × (place + figures_room ≤ length out.old) }
    ensures { Adds (figures_text figures.now) out.old out.new place result }
{
    let a = add_counts(out, place, figures);
    let b = add(out, a, b"sum ");
    let c = add(out, b, &figures[4..]);
    add(out, c, b"\n")
}

// The lesser of two numbers.
fn lesser(a: usize, b: usize) -> usize
    ensures { (result ≡ min a b) × (result ≤ b) }
{
    if a < b { a } else { b }
}

// The listing of a run that left these replies and this report, added at the front of a longer text: of the replies
// those that the report counts as written.
fn add_printed(out: &mut [u8], replies: &[u8; REPLY_ROOM], report: &[u8; REPORT_BYTES]) -> usize
    requires { text_room ≤ length out.old }
    ensures adds { Adds (printed_of replies.now report.now) out.old out.new
        0 result }
    ensures upper_bound { result ≤ text_room }
{
    let n = lesser(four_at(report, 5) as usize, REPLY_ROOM);
    let all: &[u8] = replies;
    add_listing(out, &all[..n], report[0], four_at(report, 1))
}

// What stands behind the listing: the closed sheets, the open one, the figures.
fn add_rest(out: &mut [u8], place: usize, sheets: &[u8; SHEETS_BYTES]) -> usize
    requires { (closed_in sheets.now ≤ most_sheets) × (place + rest_room ≤ length out.old) }
    ensures { Adds (rest_text sheets.now) out.old out.new place result }
{
    let a = add_sheets(out, place, sheets);
    let b = add_open(out, a, sheets);
    let mut figures = [0u8; FIGURES_BYTES];
    sheets::sheets_figures(sheets, &mut figures);
    add_figures(out, b, &figures)
}

// The text for an input under a mode and a rule, at the front of the lent text: the answer says how many bytes.
pub fn print(mode: u32, rule: u32, input: &[u8], text: &mut [u8; PRINT_ROOM]) -> usize
    ensures prefix_len { IsPrefixLen result text.new }
    ensures text_after { take result text.new ≡ printout_under mode rule input.now }
{
    let mut state = [0u8; STATE_BYTES];
    let mut sheets = [0u8; SHEETS_BYTES];
    let mut replies = [0u8; REPLY_ROOM];
    let mut report = [0u8; REPORT_BYTES];
    sheets::sheets_run(
        mode,
        rule,
        &mut state,
        &mut sheets,
        input,
        &mut replies,
        &mut report,
    );
    let place = add_printed(text, &replies, &report);
    add_rest(text, place, &sheets)
}

// The text for a call of so many words, the program's own name among them, with the first two
// behind it: the line `usage` where it asks for nothing that the program does.
pub fn told(
    words: usize,
    first: &[u8],
    second: &[u8],
    input: &[u8],
    text: &mut [u8; PRINT_ROOM],
) -> usize
    ensures prefix_len { IsPrefixLen result text.new }
    ensures text_after { take result text.new ≡ told_of words first.now second.now
        input.now }
{
    let asked = asked_of(words, first, second);
    match asked {
        Asked::Under { mode, rule } => print(mode, rule, input, text),
        Asked::Nothing => add(text, 0, b"usage\n"),
    }
}
