// The calls that the rack controller's firmware makes, on byte slices that it lends. Every call refuses by 01's number,
// asks nothing of its caller, and says what each slice holds after. Each is thin over the function that does its work.
#![tactic(auto)]

pub mod event;

ghost use Rattle.host_floats.specs.Host.{host_of, taken_of, host_reply, taken_reply};
ghost use Rattle.host_floats.specs.Buffers.{words_turn, floats_turn, Turns};
ghost use Rattle.state_bytes.specs.Calls.{Calls, call_of, Signals, signal_of};
ghost use Rattle.pundaliket.specs.Calls.{sent_of, Sends};
ghost use Rattle.pundaliket.specs.FormulaCall.{formula_call, Writes};

use terms::{kind_of, mode_of, number, rule_of};

// A file of records run on a state. Returns the refusal; 14, then 16, 17, 13, 9 before any record.
#[unsafe(no_mangle)]
pub extern "C" fn pundaliket_run(
    mode: u32,
    rule: u32,
    state: &mut [u8],
    input: &[u8],
    replies: &mut [u8],
    report: &mut [u8],
) -> u32
    ensures { Calls (call_of mode rule state.old input.now replies.old
        report.old) result state.new replies.new report.new }
{
    state_bytes::calls::run(mode, rule, state, input, replies, report)
}

// One event on a state. Returns 256 times the refusal plus the byte read; a refused event writes nothing.
#[unsafe(no_mangle)]
pub extern "C" fn pundaliket_event(
    mode: u32,
    rule: u32,
    state: &mut [u8],
    kind: u32,
    byte: u8,
) -> u32
    ensures { Signals (signal_of mode rule state.old kind byte) result state.new }
{
    let refusal = number(state_bytes::admit(mode, rule, state));
    if refusal != 0 {
        return crate::event::joined(refusal, 0);
    }
    crate::event::event_on(mode_of(mode), rule_of(rule), state, kind_of(kind), byte)
}

// The reply of a conversion, its 32 bits to `out` on 0 alone; a slice that is not four bytes first.
fn send(reply: host_floats::Reply, out: &mut [u8]) -> u32
    ensures { Sends (sent_of reply out.old) result out.new }
{
    if out.len() != numbers::WORD_BYTES {
        return number(terms::Refusal::NoRoom) as u32;
    }
    let refusal = reply.refusal;
    let code = number(refusal);
    if code != 0 {
        return code as u32;
    }
    numbers::put_word(out, reply.bits as usize);
    0
}

// The f32 of a word's value, as its bits to `out`. Returns the refusal.
#[unsafe(no_mangle)]
pub extern "C" fn pundaliket_word_to_f32(word: u32, out: &mut [u8]) -> u32
    ensures { Sends (sent_of (host_reply (host_of word)) out.old) result out.new }
{
    send(host_floats::reply_to_word(word), out)
}

// The word of the value of an f32, given by its bits, to `out`. Returns the refusal.
#[unsafe(no_mangle)]
pub extern "C" fn pundaliket_f32_to_word(bits: u32, out: &mut [u8]) -> u32
    ensures { Sends (sent_of (taken_reply (taken_of bits)) out.old) result out.new }
{
    send(host_floats::reply_to_f32(bits), out)
}

// Words, four bytes each, to f64s, eight bytes each. Returns the refusal: 18, 8, then 4; `out` is written on 0 alone.
// `number` always is: on 0 how many f64s were brought to 24 bits, else the first bad entry, counted from 1, or 0.
#[unsafe(no_mangle)]
pub extern "C" fn pundaliket_words_to_f64(words: &[u8], out: &mut [u8], number: &mut u64) -> u32
    ensures { Turns (words_turn words.now out.old) result number.new
        out.new }
{
    let reply = host_floats::words::words_to_f64(words, out);
    *number = reply.number as u64;
    reply.refusal as u32
}

// F64s to words, under a rule. Returns the refusal: 17, 18, 8, then 10, 15, 12, 11; `out` is written on 0 alone.
#[unsafe(no_mangle)]
pub extern "C" fn pundaliket_f64_to_words(
    rule: u32,
    floats: &[u8],
    out: &mut [u8],
    number: &mut u64,
) -> u32
    ensures { Turns (floats_turn rule floats.now out.old) result number.new
        out.new }
{
    let reply = host_floats::floats::f64_to_words(rule, floats, out);
    *number = reply.number as u64;
    reply.refusal as u32
}

// One formula, its letters' words beside it, to a record file at the front of `file`. Returns 65,536 times the
// refusal plus the bytes written; a refusal writes nothing.
#[unsafe(no_mangle)]
pub extern "C" fn pundaliket_formula(text: &[u8], letters: &[u8], file: &mut [u8]) -> u32
    ensures { Writes (formula_call text.now letters.now file.old) result
        file.new }
{
    let t = formula::translate(text, letters, file);
    let refusal = t.refusal;
    65536 * formula::number(refusal) as u32 + t.size as u32
}
