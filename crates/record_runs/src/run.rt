// The run of a file: every record in turn, by the record step, with the card in locals of the loop.
ghost use Rattle.std.specs.Prelude.{◌≡◌, ◌≤◌, ◌<◌, length};
ghost use Rattle.terms.specs.Limits.{most_input};
ghost use Rattle.chip.specs.Step.{given};
ghost use Rattle.error_memory.specs.Held.{card_under};
ghost use Rattle.record_runs.specs.Run.{run_of};
ghost use Rattle.record_runs.specs.Held.{counted_in, at_start, Passed};

use crate::step::{Pass, Place};
use error_memory::Card;
use terms::Rule;

// More room than the replies of any file take: 245 bytes for each byte of an input.
const MOST_REPLIES: usize = 3_010_560;

// The room for replies as far as it counts.
fn counted(room: usize) -> u32
    ensures { result ≡ counted_in room }
{
    if room < MOST_REPLIES {
        return room as u32;
    }
    MOST_REPLIES as u32
}

// The start of a run in a file and in room of so many bytes.
pub fn begin(size: usize, room: usize) -> Place
    requires { size ≤ most_input }
    ensures { result ≡ at_start size room }
{
    Place {
        taken: 0,
        size: size as u32,
        written: 0,
        most: counted(room),
    }
}

// Every record of `input` in turn, until one is refused or none is left. The state is laid down part by part: a copy of
// the whole would carry the bytes between its parts through memory, at each record.
pub fn run_all(start: Card, mode: terms::Mode, rule: Rule, input: &[u8], replies: &mut [u8]) -> Pass
    requires { (start.chip.status < 128) × (length input.now ≤ most_input) }
    ensures { Passed (card_under (given mode rule))
        (run_of (card_under (given mode rule) start) input.now (length replies.old))
        (record {
          place = at_start (length input.now) (length replies.old);
          card = start;
          room = replies.old;
          pass = result;
          left = replies.new;
        }) }
{
    let mut card = start;
    let mut place = begin(input.len(), replies.len());
    while place.taken < place.size {
        let rest = &input[place.taken as usize..];
        let room = &mut replies[place.written as usize..];
        let t = crate::step::pass_record(card, mode, rule, rest, room, place);
        if t.refusal != 0 {
            return t;
        }
        let stack = t.card.chip.stack;
        let memory = t.card.memory;
        card = Card {
            chip: chip::State {
                stack,
                pending: t.card.chip.pending,
                status: t.card.chip.status,
                service: t.card.chip.service,
            },
            memory,
        };
        place = t.place;
    }
    Pass {
        card,
        refusal: 0,
        place,
    }
}
