// The record step of this library, on a card and on the sheets where they lie: its own kinds, and the core's step for
// all others.
ghost use Rattle.std.specs.Prelude.{◌≡◌, true, ◌<◌, length};
ghost use Rattle.chip.specs.Step.{given};
ghost use Rattle.sheet_bytes.specs.Ledger.{sheets_bytes};
ghost use Rattle.record_runs.specs.Held.{Begins, Stands, Passed};
ghost use Rattle.sheets.specs.Step.{is_own, sheet_step};
ghost use Rattle.sheets.specs.Held.{beside, PassesOwn, PassesCore};

use error_memory::Card;
use numbers::two;
use record_runs::head::read_frame;
use record_runs::step::{Pass, Place, finish, open_reply, pass_record, stop};
use sheet_bytes::bytes::drop_open;
use sheet_bytes::enter::{CLOSE_KIND, OPEN_KIND, enter, payload_for};
use sheet_bytes::number;
use terms::{Mode, Refusal, Rule, Width};

// Whether a whole record of this library stands at the front of `rest`.
fn is_own(rest: &[u8], place: Place) -> bool
    requires { Begins place (length rest.now) }
    ensures { result ≡ is_own rest.now }
{
    if place.size < place.taken + 4 {
        return false;
    }
    let kind = two(rest[2], rest[3]);
    if kind < OPEN_KIND {
        return false;
    }
    if CLOSE_KIND < kind {
        return false;
    }
    match read_frame(rest, place.taken, place.size) {
        Ok(_) => true,
        Err(_) => false,
    }
}

// A record of this library.
fn pass_own(card: Card, sheets: &mut [u8], rest: &[u8], room: &mut [u8], place: Place) -> Pass
    requires { (length sheets.old ≡ sheets_bytes) × (is_own rest.now ≡ true) × Stands place (length room.old) }
    ensures { PassesOwn sheets.old sheets.new rest.now
        (record { place = place; card = card; room = room.old; pass = result; left = room.new }) }
{
    let kind = two(rest[2], rest[3]);
    let wanted = payload_for(kind);
    if two(rest[0], rest[1]) as usize != 2 + wanted {
        return stop(Refusal::BadLength, card, place);
    }
    if place.most < place.written + 5 {
        return stop(Refusal::NoRoom, card, place);
    }
    let end = 4 + wanted;
    let chip = card.chip;
    let memory = card.memory;
    let stack = chip.stack;
    let top = stack.tos(Width::Double);
    let refusal = enter(sheets, kind, &rest[4..end], chip.pending, top);
    open_reply(room, 0, kind + 0x8000, number(refusal));
    finish(chip, memory, place, end as u32, 5)
}

// A record of the core: a reset that is taken drops the open sheet.
fn pass_core(
    card: Card,
    mode: Mode,
    rule: Rule,
    sheets: &mut [u8],
    rest: &[u8],
    room: &mut [u8],
    place: Place,
) -> Pass
    requires { (card.chip.status < 128) × (length sheets.old ≡ sheets_bytes) × Begins place (length rest.now) ×
        Stands place (length room.old) }
    ensures { PassesCore (given mode rule) sheets.old sheets.new rest.now
        (record { place = place; card = card; room = room.old; pass = result; left = room.new }) }
{
    let t = pass_record(card, mode, rule, rest, room, place);
    let refusal = t.refusal;
    if refusal != 0 {
        return t;
    }
    if two(rest[2], rest[3]) != 5 {
        return t;
    }
    drop_open(sheets);
    t
}

// The record step.
pub fn pass_line(
    card: Card,
    mode: Mode,
    rule: Rule,
    sheets: &mut [u8],
    rest: &[u8],
    room: &mut [u8],
    place: Place,
) -> Pass
    requires { (card.chip.status < 128) × (length sheets.old ≡ sheets_bytes) × Begins place (length rest.now) ×
        Stands place (length room.old) }
    ensures { Passed (beside (given mode rule) sheets.new)
        (sheet_step (beside (given mode rule) sheets.old card) rest.now
        (length room.old))
        (record { place = place; card = card; room = room.old; pass = result; left = room.new }) }
{
    if is_own(rest, place) {
        return pass_own(card, sheets, rest, room, place);
    }
    pass_core(card, mode, rule, sheets, rest, room, place)
}
