// The second library that C calls, libsheets.a: each call of `sheets` under its C name, and with its contract.
#![tactic(auto)]

ghost use Rattle.sheet_figures.specs.Telling.{figures_of, FiguresCalls};
ghost use Rattle.sheets.specs.Calls.{Calls, call_of};

// A file of records run on a state and on sheets. Returns the refusal; 14, then 16, 17, 13, 9 before any record.
#[unsafe(no_mangle)]
pub extern "C" fn sheets_run(
    mode: u32,
    rule: u32,
    state: &mut [u8],
    sheets: &mut [u8],
    input: &[u8],
    replies: &mut [u8],
    report: &mut [u8],
) -> u32
    ensures { Calls (call_of mode rule state.old sheets.old input.now
        replies.old report.old) result state.new sheets.new replies.new
        report.new }
{
    sheets::sheets_run(mode, rule, state, sheets, input, replies, report)
}

// The shift's figures of a `sheets` slice, 53 bytes: lines, different serials, serials on more than one line, slot 0
// words that are not proper, the exact sum. Returns the refusal; 8, then 13; only on 0 is `out` written.
#[unsafe(no_mangle)]
pub extern "C" fn sheets_figures(sheets: &[u8], out: &mut [u8]) -> u32
    ensures { FiguresCalls (figures_of sheets.now out.old) result out.new }
{
    sheets::sheets_figures(sheets, out)
}
