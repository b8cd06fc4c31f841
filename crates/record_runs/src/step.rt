// The record step: what becomes of the record at the front of a file. A worker for each kind, which is handed the
// payload; a record is worked on only once its payload is right and its reply has room, and its reply is written once,
// in place. The card is not busy: a busy state is turned away at the door.
ghost use Rattle.std.specs.Prelude.{◌≡◌, ◌∷◌, ◌++◌, ◌+◌, ◌≤◌, ◌<◌, length, drop};
ghost use Rattle.terms.specs.Limits.{most_payload, most_input};
ghost use Rattle.chip.specs.Step.{given};
ghost use Rattle.error_memory.specs.Held.{card_under};
ghost use Rattle.record_runs.specs.Record.{le2, turn_of};
ghost use Rattle.record_runs.specs.Held.{most_replies, ready_at, unchanged, further, finished, Begins, Stands};
ghost use Rattle.record_runs.specs.Held.{Passed, Passes, PassesByRule, PassesAll, PassesBare};

use chip::State;
use error_memory::{Card, Memory, empty, remember};
use terms::{EventKind, Mode, Refusal, Rule, number};

// Where a run stands: the bytes of records taken, of as many as the file has, and the bytes of replies written, of as
// many as have room. Numbers of 32 bits, which a processor of 32 bits keeps in one register each.
#[derive(Clone, Copy)]
pub struct Place {
    pub taken: u32,
    pub size: u32,
    pub written: u32,
    pub most: u32,
}

// What became of a record, or of a file: the card after it, the refusal that stops the run or 0, the place behind it.
// The refusal has 16 bits: a struct's copy carries no hole of more than four bytes then.
#[derive(Clone, Copy)]
pub struct Pass {
    pub card: Card,
    pub refusal: u16,
    pub place: Place,
}

// The five bytes before a reply's n bytes of data, at the front of `room`; the kind is the reply's own.
pub fn open_reply(room: &mut [u8], n: u32, kind: u16, refusal: u8)
    requires { (n ≤ most_payload) × (5 ≤ length room.old) }
    ensures { room.new ≡ le2 (3 + n) ++ (le2 kind ++ (refusal ∷ drop 5 room.old)) }
{
    room[0] = (3 + n) as u8;
    room[1] = 0;
    room[2] = (kind % 256) as u8;
    room[3] = (kind / 256) as u8;
    room[4] = refusal;
}

// A record of which nothing is done.
pub fn stop(refusal: Refusal, card: Card, place: Place) -> Pass
    ensures { result ≡ unchanged refusal card place }
{
    Pass {
        card,
        refusal: number(refusal) as u16,
        place,
    }
}

// A record of n bytes that is done, with a reply of m.
pub fn finish(chip: State, memory: Memory, place: Place, n: u32, m: u32) -> Pass
    requires { (place.taken ≤ most_input) × (place.written ≤ most_replies) × (n ≤ 300) × (m ≤ 300) }
    ensures { result ≡ finished chip memory (further place n m) }
{
    Pass {
        card: Card { chip, memory },
        refusal: 0,
        place: Place {
            taken: place.taken + n,
            size: place.size,
            written: place.written + m,
            most: place.most,
        },
    }
}

// Whether a record is done: 7 where its payload is not right, then 8 where a reply of m bytes has no room.
fn ready(right: bool, place: Place, m: u32) -> Refusal
    requires { (place.written ≤ most_replies) × (m ≤ 300) }
    ensures { result ≡ ready_at right place m }
{
    if !right {
        return Refusal::BadLength;
    }
    if place.most < place.written + m {
        return Refusal::NoRoom;
    }
    Refusal::Done
}

// The bytes of the payload pushed.
fn pass_push(card: Card, payload: &[u8], room: &mut [u8], place: Place) -> Pass
    requires { (card.chip.status < 128) × (length payload.now ≤ most_payload) ×
        Stands place (length room.old) }
    ensures { PassesAll EventKind.Push payload.now
        (record { place = place; card = card; room = room.old; pass = result; left = room.new }) }
{
    let why = ready(1 <= payload.len(), place, 5);
    if number(why) != 0 {
        return stop(why, card, place);
    }
    let chip = card.chip;
    let memory = card.memory;
    let after = chip.push_all(payload);
    open_reply(room, 0, 129, 0);
    finish(after, memory, place, 4 + payload.len() as u32, 5)
}

// As many bytes popped as the payload says, each to its place in the reply.
fn pass_pop(card: Card, payload: &[u8], room: &mut [u8], place: Place) -> Pass
    requires { (card.chip.status < 128) × Stands place (length room.old) }
    ensures { PassesAll EventKind.Pop payload.now
        (record { place = place; card = card; room = room.old; pass = result; left = room.new }) }
{
    if payload.len() != 1 {
        return stop(Refusal::BadLength, card, place);
    }
    let n = payload[0] as u32;
    let why = ready((1 <= n) & (n as usize <= terms::MOST_PAYLOAD), place, 5 + n);
    if number(why) != 0 {
        return stop(why, card, place);
    }
    let chip = card.chip;
    let memory = card.memory;
    let after = chip.pop_all(n as usize, &mut room[5..]);
    open_reply(room, n, 130, 0);
    finish(after, memory, place, 5, 5 + n)
}

// A command, whose code is the payload.
fn pass_command(card: Card, rule: Rule, payload: &[u8], room: &mut [u8], place: Place) -> Pass
    requires { (card.chip.status < 128) × Stands place (length room.old) }
    ensures { PassesByRule rule EventKind.Command payload.now
        (record { place = place; card = card; room = room.old; pass = result; left = room.new }) }
{
    let why = ready(payload.len() == 1, place, 5);
    if number(why) != 0 {
        return stop(why, card, place);
    }
    let code = payload[0];
    let chip = card.chip;
    let memory = card.memory;
    let a = chip.command(rule, code);
    let why = a.refusal;
    let refusal = number(why);
    let after = a.state;
    open_reply(room, 0, 131, refusal);
    if refusal != 0 {
        return finish(after, memory, place, 5, 5);
    }
    finish(after, remember(memory, code, after.status), place, 5, 5)
}

// The status byte, to the reply.
fn pass_status(card: Card, payload: &[u8], room: &mut [u8], place: Place) -> Pass
    requires { (card.chip.status < 128) × Stands place (length room.old) }
    ensures { PassesAll EventKind.Status payload.now
        (record { place = place; card = card; room = room.old; pass = result; left = room.new }) }
{
    let why = ready(payload.len() == 0, place, 6);
    if number(why) != 0 {
        return stop(why, card, place);
    }
    let chip = card.chip;
    let memory = card.memory;
    room[5] = chip.status;
    open_reply(room, 1, 132, 0);
    finish(chip, memory, place, 4, 6)
}

// The error memory, its bits and its code to the reply.
fn pass_recall(card: Card, payload: &[u8], room: &mut [u8], place: Place) -> Pass
    requires { (card.chip.status < 128) × Stands place (length room.old) }
    ensures { PassesAll EventKind.Recall payload.now
        (record { place = place; card = card; room = room.old; pass = result; left = room.new }) }
{
    let why = ready(payload.len() == 0, place, 7);
    if number(why) != 0 {
        return stop(why, card, place);
    }
    let chip = card.chip;
    let memory = card.memory;
    room[5] = memory.bits;
    room[6] = memory.code;
    open_reply(room, 2, 135, 0);
    finish(chip, memory, place, 4, 7)
}

// A record with no payload and no data in its reply, after which the card is `after`.
fn pass_bare(
    card: Card,
    after: Card,
    kind: u16,
    payload: &[u8],
    room: &mut [u8],
    place: Place,
) -> Pass
    requires { Stands place (length room.old) }
    ensures { PassesBare after kind (length payload.now)
        (record { place = place; card = card; room = room.old; pass = result; left = room.new }) }
{
    let why = ready(payload.len() == 0, place, 5);
    if number(why) != 0 {
        return stop(why, card, place);
    }
    open_reply(room, 0, kind, 0);
    let chip = after.chip;
    let memory = after.memory;
    finish(chip, memory, place, 4, 5)
}

// A record of a kind with its payload.
fn pass_kind(
    card: Card,
    mode: Mode,
    rule: Rule,
    kind: EventKind,
    payload: &[u8],
    room: &mut [u8],
    place: Place,
) -> Pass
    requires { (card.chip.status < 128) × (length payload.now ≤ most_payload) ×
        Stands place (length room.old) }
    ensures { Passes (given mode rule) kind payload.now
        (record { place = place; card = card; room = room.old; pass = result; left = room.new }) }
{
    let chip = card.chip;
    let memory = card.memory;
    match kind {
        EventKind::Push => pass_push(card, payload, room, place),
        EventKind::Pop => pass_pop(card, payload, room, place),
        EventKind::Command => pass_command(card, rule, payload, room, place),
        EventKind::Status => pass_status(card, payload, room, place),
        EventKind::Reset => {
            let chip = chip.reset(mode).state;
            let memory = empty();
            pass_bare(card, Card { chip, memory }, 133, payload, room, place)
        }
        EventKind::Acknowledge => {
            let chip = chip.acknowledge().state;
            pass_bare(card, Card { chip, memory }, 134, payload, room, place)
        }
        EventKind::Recall => pass_recall(card, payload, room, place),
        EventKind::Forget => {
            let memory = empty();
            pass_bare(card, Card { chip, memory }, 136, payload, room, place)
        }
        EventKind::Unknown => stop(Refusal::NoSuchKind, card, place),
    }
}

// The record step: what becomes of the record at the front of `rest`.
pub fn pass_record(
    card: Card,
    mode: Mode,
    rule: Rule,
    rest: &[u8],
    room: &mut [u8],
    place: Place,
) -> Pass
    requires { (card.chip.status < 128) × Begins place (length rest.now) × Stands place (length room.old) }
    ensures { Passed (card_under (given mode rule))
        (turn_of (card_under (given mode rule) card) rest.now (length room.old))
        (record { place = place; card = card; room = room.old; pass = result; left = room.new }) }
{
    match crate::head::read_frame(rest, place.taken, place.size) {
        Ok(n) => {
            let end = 4 + n as usize;
            let kind = EventKind::from(numbers::two(rest[2], rest[3]) as u32);
            pass_kind(card, mode, rule, kind, &rest[4..end], room, place)
        }
        Err(refusal) => stop(refusal, card, place),
    }
}
