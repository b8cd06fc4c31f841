// What the listing program prints for an input: the run from reset, and the listing of its replies. The program only
// reads, calls this and writes.
#![tactic(auto)]

ghost use Rattle.std.specs.Prelude.{◌≡◌, take};
ghost use Rattle.io.specs.Counts.{IsPrefixLen};
ghost use Rattle.chip.specs.Step.{given};
ghost use Rattle.listing.specs.Text.{Adds};
ghost use Rattle.list_text.specs.Printout.{ResetCard, listed_of, told_of};

use chip::State;
use error_memory::{Card, empty};
use listing::options::{Asked, asked_of};
use listing::{REPLY_ROOM, add_listing};
use stack::Stack;
use terms::{Mode, Refusal, Rule, mode_of, number, rule_of};

// Room for the listing of any replies that the program lends room for.
pub const TEXT_ROOM: usize = 262190;

// The card after a reset.
fn reset_card() -> Card
    ensures { ResetCard result }
{
    let chip = State::of(Stack::cleared(), false, 0, false);
    let memory = empty();
    Card { chip, memory }
}

// The listing of an input, run from reset under a mode and a rule.
fn list(mode: Mode, rule: Rule, input: &[u8], text: &mut [u8; TEXT_ROOM]) -> usize
    ensures { Adds (listed_of (given mode rule) input.now) text.old text.new 0 result }
{
    if terms::MOST_INPUT < input.len() {
        return add_listing(text, b"", number(Refusal::InputTooLong), 0);
    }
    let mut replies = [0u8; REPLY_ROOM];
    let r = record_runs::run::run_all(reset_card(), mode, rule, input, &mut replies);
    let all: &[u8] = &replies;
    let written = r.place.written as usize;
    add_listing(text, &all[..written], r.refusal as u8, r.place.taken)
}

// The text for a call of so many words, the program's own name among them, with the first two behind it, at the front
// of the lent text: the answer says how many bytes.
pub fn told(
    words: usize,
    first: &[u8],
    second: &[u8],
    input: &[u8],
    text: &mut [u8; TEXT_ROOM],
) -> usize
    ensures prefix_len { IsPrefixLen result text.new }
    ensures text_after { take result text.new ≡ told_of words first.now second.now
        input.now }
{
    let asked = asked_of(words, first, second);
    match asked {
        Asked::Under { mode, rule } => list(mode_of(mode), rule_of(rule), input, text),
        Asked::Nothing => listing::text::add(text, 0, b"usage\n"),
    }
}
