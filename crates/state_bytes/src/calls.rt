// The run of a file on the bytes of a state: what the exported call does.
ghost use Rattle.std.specs.Prelude.{◌≡◌, true, ◌≤◌, length};
ghost use Rattle.terms.specs.Limits.{report_bytes, most_input};
ghost use Rattle.chip.specs.Step.{given};
ghost use Rattle.record_runs.specs.Run.{run_of};
ghost use Rattle.state_bytes.specs.Bytes.{is_state, card_in};
ghost use Rattle.state_bytes.specs.Calls.{Calls, ran_of, call_of};

use crate::turn_away;
use terms::{Refusal, number};

// The run on a good state; reported.
fn run_good(
    mode: terms::Mode,
    rule: terms::Rule,
    state: &mut [u8],
    input: &[u8],
    replies: &mut [u8],
    report: &mut [u8],
) -> u32
    requires { (is_state state.old ≡ true) × (length report.old ≡ report_bytes) ×
        (length input.now ≤ most_input) }
    ensures { Calls (ran_of (length state.old)
        (run_of (card_in (given mode rule) state.old) input.now (length replies.old))
        replies.old) result state.new replies.new report.new }
{
    let r = record_runs::run::run_all(crate::card_in(state), mode, rule, input, replies);
    crate::settle(r, state, report)
}

// A file of records run on a state. Returns the refusal; 14, then 16, 17, 13, 9 before any record.
// A call for each length of a state: the run stays a function of its own, and its loop keeps no more at hand than it
// needs.
pub fn run(
    mode: u32,
    rule: u32,
    state: &mut [u8],
    input: &[u8],
    replies: &mut [u8],
    report: &mut [u8],
) -> u32
    ensures { Calls (call_of mode rule state.old input.now replies.old
        report.old) result state.new replies.new report.new }
{
    if report.len() != terms::REPORT_BYTES {
        return number(Refusal::BadReport) as u32;
    }
    let refusal = number(crate::admit(mode, rule, state));
    if refusal != 0 {
        return turn_away(report, refusal);
    }
    if terms::MOST_INPUT < input.len() {
        return turn_away(report, number(Refusal::InputTooLong));
    }
    let part = terms::mode_of(mode);
    let way = terms::rule_of(rule);
    if state.len() == terms::STATE_BYTES {
        return run_good(part, way, state, input, replies, report);
    }
    run_good(part, way, state, input, replies, report)
}
