// A stored state and the calls on it: its 19 bytes, or 21 with its error memory, and the report's 9, the one place
// where their layout is known; the door that admits a call; the run and the single event.
#![tactic(auto)]

pub mod calls;

ghost use Rattle.std.specs.Prelude.{◌≡◌, ◌≤◌, length};
ghost use Rattle.terms.specs.Limits.{state_bytes, report_bytes};
ghost use Rattle.stack.specs.Words.{bytes_in};
ghost use Rattle.chip.specs.Held.{state_in};
ghost use Rattle.state_bytes.specs.Bytes.{Sized, is_chip, is_state, state_of, memory_in, laid, with_memory};
ghost use Rattle.state_bytes.specs.Bytes.{report_of, door_of};
ghost use Rattle.state_bytes.specs.Held.{holds};

use chip::State;
use error_memory::{Card, Memory};
use numbers::{eight_at, put_eight, put_word, reversed_8};
use record_runs::step::Pass;
use stack::Stack;
use terms::Refusal;

// Whether the bytes behind the stack stand for a chip's: both flags 0 or 1, busy clear.
fn is_chip(state: &[u8]) -> bool
    requires { state_bytes ≤ length state.now }
    ensures { result ≡ is_chip state.now }
{
    (state[16] <= 1) & (state[18] <= 1) && state[17] <= 127
}

// Whether the bytes stand for a state: 19 of them, or 21 with the memory's two behind.
fn is_state(state: &[u8]) -> bool
    ensures { result ≡ is_state state.now }
{
    if state.len() == terms::STATE_BYTES {
        return is_chip(state);
    }
    if state.len() != terms::LONG_STATE_BYTES {
        return false;
    }
    is_chip(state) && error_memory::is_memory(state[19], state[20])
}

// The door: 16, 17, 13, or 0 where mode, rule and the state's bytes are admitted.
pub fn admit(mode: u32, rule: u32, state: &[u8]) -> Refusal
    ensures { result ≡ door_of mode rule state.now }
{
    if !terms::is_mode(mode) {
        return Refusal::BadMode;
    }
    if !terms::is_rule(rule) {
        return Refusal::BadRule;
    }
    if !is_state(state) {
        return Refusal::BadState;
    }
    Refusal::Done
}

// The stack that 16 bytes stand for.
fn stack_in(bytes: &[u8]) -> Stack
    requires { length bytes.now ≡ 16 }
    ensures { bytes_in result ≡ bytes.now }
{
    Stack {
        top: reversed_8(eight_at(bytes, 0)),
        rest: reversed_8(eight_at(bytes, 8)),
    }
}

// The chip of a state.
pub fn chip_in(state: &[u8]) -> State
    requires { state_bytes ≤ length state.now }
    ensures { state_in result ≡ state_of state.now }
{
    let stack = stack_in(&state[..16]);
    State {
        stack,
        pending: state[16] == 1,
        status: state[17],
        service: state[18] == 1,
    }
}

// The memory of a state: empty where it has 19 bytes.
pub fn memory_in(state: &[u8]) -> Memory
    requires { Sized state.now }
    ensures { result ≡ memory_in state.now }
{
    if state.len() == terms::STATE_BYTES {
        return error_memory::empty();
    }
    Memory {
        bits: state[19],
        code: state[20],
    }
}

// Both.
pub fn card_in(state: &[u8]) -> Card
    requires { Sized state.now }
    ensures { holds result state.now }
{
    let chip = chip_in(state);
    let memory = memory_in(state);
    Card { chip, memory }
}

// The 16 bytes of a stack.
fn put_stack(bytes: &mut [u8], stack: Stack)
    requires { length bytes.old ≡ 16 }
    ensures { bytes.new ≡ bytes_in stack }
{
    put_eight(&mut bytes[0..8], reversed_8(stack.top));
    put_eight(&mut bytes[8..16], reversed_8(stack.rest));
}

// The chip's 19 bytes; all others stay.
pub fn put_chip(state: &mut [u8], chip: State)
    requires { Sized state.old }
    ensures { state.new ≡ laid (length state.old) (state_in chip)
        (memory_in state.old) }
{
    let stack = chip.stack;
    put_stack(&mut state[..16], stack);
    state[16] = chip.pending as u8;
    state[17] = chip.status;
    state[18] = chip.service as u8;
}

// The memory's two bytes where the state has them; all others stay.
pub fn put_memory(state: &mut [u8], m: Memory)
    requires { Sized state.old }
    ensures { state.new ≡ with_memory state.old m }
{
    if state.len() == terms::LONG_STATE_BYTES {
        state[19] = m.bits;
        state[20] = m.code;
    }
}

// The 9 bytes of a report.
pub fn fill_report(report: &mut [u8], refusal: u8, taken: u32, written: u32)
    requires { length report.old ≡ report_bytes }
    ensures { report.new ≡ report_of refusal taken written }
{
    report[0] = refusal;
    put_word(&mut report[1..5], taken as usize);
    put_word(&mut report[5..9], written as usize);
}

// The report of a call that is turned away: the refusal and two counts of 0.
pub fn turn_away(report: &mut [u8], refusal: u8) -> u32
    requires { length report.old ≡ report_bytes }
    ensures { (result ≡ refusal) × (report.new ≡ report_of refusal 0 0) }
{
    fill_report(report, refusal, 0, 0);
    refusal as u32
}

// What a run leaves: its card's bytes and its report. Returns the refusal.
pub fn settle(r: Pass, state: &mut [u8], report: &mut [u8]) -> u32
    requires { Sized state.old × (length report.old ≡ report_bytes) × (r.refusal ≤ 8) }
    ensures { (result ≡ r.refusal)
        × (state.new ≡ laid (length state.old) (state_in r.card.chip) r.card.memory)
        × (report.new ≡ report_of r.refusal r.place.taken r.place.written) }
{
    let chip = r.card.chip;
    let memory = r.card.memory;
    put_chip(state, chip);
    put_memory(state, memory);
    fill_report(report, r.refusal as u8, r.place.taken, r.place.written);
    r.refusal as u32
}
