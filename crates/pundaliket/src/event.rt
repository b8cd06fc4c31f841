// A single event on the bytes of a good state: the chip's answer settled, what is remembered written behind it.
ghost use Rattle.std.specs.Prelude.{◌≡◌, true, ◌+◌, ◌*◌};
ghost use Rattle.chip.specs.Step.{given};
ghost use Rattle.chip.specs.Event.{Command as CommandEvent};
ghost use Rattle.chip.specs.Held.{answer_in};
ghost use Rattle.error_memory.specs.Memory.{kept_after};
ghost use Rattle.state_bytes.specs.Bytes.{Sized, is_state, memory_in, card_in, with_memory};
ghost use Rattle.state_bytes.specs.Calls.{answered_by, signal_by, Signals};
ghost use Rattle.pundaliket.specs.Held.{Settles};

use state_bytes::{chip_in, memory_in, put_memory};
use terms::{EventKind, Rule, number};

// 256 times a refusal plus a byte.
pub fn joined(refusal: u8, byte: u8) -> u32
    ensures { result ≡ 256 * refusal + byte }
{
    256 * refusal as u32 + byte as u32
}

// What an event of the chip answered, the memory as it stands; the state is written on 0 alone.
fn keep(a: chip::Answer, state: &mut [u8]) -> u32
    requires { Sized state.old }
    ensures { Settles state.old a (memory_in state.old) result state.new }
{
    let why = a.refusal;
    let refusal = number(why);
    if refusal != 0 {
        return joined(refusal, a.byte);
    }
    let chip = a.state;
    state_bytes::put_chip(state, chip);
    joined(refusal, a.byte)
}

// What a command leaves remembered.
fn keep_errors(a: chip::Answer, code: u8, state: &mut [u8])
    requires { Sized state.old }
    ensures { state.new ≡ with_memory state.old
        (kept_after (memory_in state.old) (CommandEvent code) (answer_in a)) }
{
    let why = a.refusal;
    if number(why) == 0 {
        let memory = memory_in(state);
        put_memory(state, error_memory::remember(memory, code, a.state.status));
    }
}

// One event of a kind on a good state; the byte is the one pushed or the code, else ignored.
pub fn event_on(mode: terms::Mode, rule: Rule, state: &mut [u8], kind: EventKind, byte: u8) -> u32
    requires { is_state state.old ≡ true }
    ensures { Signals (signal_by state.old
        (answered_by (card_in (given mode rule) state.old) byte kind)) result state.new }
{
    match kind {
        EventKind::Push => keep(chip_in(state).push(byte), state),
        EventKind::Pop => keep(chip_in(state).pop(), state),
        EventKind::Command => {
            let a = chip_in(state).command(rule, byte);
            keep_errors(a, byte, state);
            keep(a, state)
        }
        EventKind::Status => keep(chip_in(state).read(), state),
        EventKind::Reset => {
            put_memory(state, error_memory::empty());
            keep(chip_in(state).reset(mode), state)
        }
        EventKind::Acknowledge => keep(chip_in(state).acknowledge(), state),
        EventKind::Recall => joined(0, memory_in(state).bits),
        EventKind::Forget => {
            put_memory(state, error_memory::empty());
            joined(0, 0)
        }
        EventKind::Unknown => joined(number(terms::Refusal::NoSuchKind), 0),
    }
}
