// The run of a file with records of this library among the core's: every record in turn, by the record step.
ghost use Rattle.std.specs.Prelude.{◌≡◌, ◌≤◌, ◌<◌, length};
ghost use Rattle.terms.specs.Limits.{most_input};
ghost use Rattle.chip.specs.Step.{given};
ghost use Rattle.sheet_bytes.specs.Ledger.{sheets_bytes};
ghost use Rattle.record_runs.specs.Held.{at_start, Passed};
ghost use Rattle.sheets.specs.Step.{run_of};
ghost use Rattle.sheets.specs.Held.{beside};

use crate::step::pass_line;
use chip::State;
use error_memory::Card;
use record_runs::run::begin;
use record_runs::step::Pass;
use terms::{Mode, Rule};

// Every record of `input` in turn, until one is refused or none is left. The state is laid down part by part, as in the
// core's run.
pub fn run_lines(
    start: Card,
    mode: Mode,
    rule: Rule,
    sheets: &mut [u8],
    input: &[u8],
    replies: &mut [u8],
) -> Pass
    requires { (start.chip.status < 128) × (length sheets.old ≡ sheets_bytes) ×
        (length input.now ≤ most_input) }
    ensures { Passed (beside (given mode rule) sheets.new)
        (run_of (beside (given mode rule) sheets.old start) input.now
        (length replies.old))
        (record {
          place = at_start (length input.now) (length replies.old);
          card = start;
          room = replies.old;
          pass = result;
          left = replies.new;
        }) }
{
    let mut card = start;
    let mut place = begin(input.len(), replies.len());
    while place.taken < place.size {
        let rest = &input[place.taken as usize..];
        let room = &mut replies[place.written as usize..];
        let t = pass_line(card, mode, rule, sheets, rest, room, place);
        let stack = t.card.chip.stack;
        let memory = t.card.memory;
        card = Card {
            chip: State {
                stack,
                pending: t.card.chip.pending,
                status: t.card.chip.status,
                service: t.card.chip.service,
            },
            memory,
        };
        let refusal = t.refusal;
        if refusal != 0 {
            return Pass {
                card,
                refusal,
                place,
            };
        }
        place = t.place;
    }
    Pass {
        card,
        refusal: 0,
        place,
    }
}
