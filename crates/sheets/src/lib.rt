// Module sheets, a second library above the core: files of records with kinds 256 to 258 among the core's, run on a
// state and on a ledger of sheets that the caller lends; and the figures of such a ledger. The core's crates know
// nothing of it.
#![tactic(auto)]

pub mod run;
pub mod step;

ghost use Rattle.std.specs.Prelude.{◌≡◌, true, ◌≤◌, length};
ghost use Rattle.terms.specs.Limits.{report_bytes, most_input};
ghost use Rattle.chip.specs.Step.{given};
ghost use Rattle.state_bytes.specs.Bytes.{is_state, card_in};
ghost use Rattle.sheet_bytes.specs.Ledger.{sheets_bytes};
ghost use Rattle.sheet_figures.specs.Telling.{figures_of, FiguresCalls};
ghost use Rattle.sheets.specs.Step.{holding, run_of};
ghost use Rattle.sheets.specs.Calls.{Calls, call_of, ran_of};

use crate::run::run_lines;
use sheet_bytes::bytes::is_sheets;
use sheet_figures::put_figures;
use state_bytes::{admit, card_in, settle, turn_away};
use terms::{Mode, Refusal, Rule, mode_of, number, rule_of};

// The run on a good state and good sheets, which are worked where they lie; reported.
fn run_good(
    mode: Mode,
    rule: Rule,
    state: &mut [u8],
    sheets: &mut [u8],
    input: &[u8],
    replies: &mut [u8],
    report: &mut [u8],
) -> u32
    requires { (is_state state.old ≡ true) × (length sheets.old ≡ sheets_bytes) ×
        (length report.old ≡ report_bytes) × (length input.now ≤ most_input) }
    ensures { Calls (ran_of (length state.old)
        (run_of (holding (card_in (given mode rule) state.old) sheets.old) input.now
        (length replies.old)) replies.old) result state.new sheets.new
        replies.new report.new }
{
    let r = run_lines(card_in(state), mode, rule, sheets, input, replies);
    settle(r, state, report)
}

// A file of records run on a state and on sheets. Returns the refusal; 14, then 16, 17, 13, 9 before any record.
// A call for each length of a state: the run stays a function of its own, as the core's does.
#[unsafe(no_mangle)]
pub extern "C" fn sheets_run(
    mode: u32,
    rule: u32,
    state: &mut [u8],
    sheets: &mut [u8],
    input: &[u8],
    replies: &mut [u8],
    report: &mut [u8],
) -> u32
    ensures { Calls (call_of mode rule state.old sheets.old input.now
        replies.old report.old) result state.new sheets.new replies.new
        report.new }
{
    if report.len() != terms::REPORT_BYTES {
        return number(Refusal::BadReport) as u32;
    }
    let refusal = number(admit(mode, rule, state));
    if refusal != 0 {
        return turn_away(report, refusal);
    }
    if !is_sheets(sheets) {
        return turn_away(report, number(Refusal::BadState));
    }
    if terms::MOST_INPUT < input.len() {
        return turn_away(report, number(Refusal::InputTooLong));
    }
    let part = mode_of(mode);
    let way = rule_of(rule);
    if state.len() == terms::STATE_BYTES {
        return run_good(part, way, state, sheets, input, replies, report);
    }
    run_good(part, way, state, sheets, input, replies, report)
}

// The shift's figures of a `sheets` slice, 53 bytes: lines, different serials, serials on more than one line, slot 0
// words that are not proper, the exact sum. Returns the refusal; 8, then 13; only on 0 is `out` written.
#[unsafe(no_mangle)]
pub extern "C" fn sheets_figures(sheets: &[u8], out: &mut [u8]) -> u32
    ensures { FiguresCalls (figures_of sheets.now out.old) result out.new }
{
    put_figures(sheets, out)
}
