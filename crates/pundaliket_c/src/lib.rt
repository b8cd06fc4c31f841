// The library that C calls, libpundaliket.a: each call of `pundaliket` under its C name, and with its contract.
#![tactic(auto)]

ghost use Rattle.host_floats.specs.Host.{host_of, taken_of, host_reply, taken_reply};
ghost use Rattle.host_floats.specs.Buffers.{words_turn, floats_turn, Turns};
ghost use Rattle.state_bytes.specs.Calls.{Calls, call_of, Signals, signal_of};
ghost use Rattle.pundaliket.specs.Calls.{sent_of, Sends};
ghost use Rattle.pundaliket.specs.FormulaCall.{formula_call, Writes};

// A file of records run on a state. Returns the refusal; 14, then 16, 17, 13, 9 before any record.
#[unsafe(no_mangle)]
pub extern "C" fn pundaliket_run(
    mode: u32,
    rule: u32,
    state: &mut [u8],
    input: &[u8],
    replies: &mut [u8],
    report: &mut [u8],
) -> u32
    ensures { Calls (call_of mode rule state.old input.now replies.old
        report.old) result state.new replies.new report.new }
{
    pundaliket::pundaliket_run(mode, rule, state, input, replies, report)
}

// One event on a state. Returns 256 times the refusal plus the byte read; a refused event writes nothing.
#[unsafe(no_mangle)]
pub extern "C" fn pundaliket_event(
    mode: u32,
    rule: u32,
    state: &mut [u8],
    kind: u32,
    byte: u8,
) -> u32
    ensures { Signals (signal_of mode rule state.old kind byte) result state.new }
{
    pundaliket::pundaliket_event(mode, rule, state, kind, byte)
}

// The f32 of a word's value, as its bits to `out`. Returns the refusal.
#[unsafe(no_mangle)]
pub extern "C" fn pundaliket_word_to_f32(word: u32, out: &mut [u8]) -> u32
    ensures { Sends (sent_of (host_reply (host_of word)) out.old) result out.new }
{
    pundaliket::pundaliket_word_to_f32(word, out)
}

// The word of the value of an f32, given by its bits, to `out`. Returns the refusal.
#[unsafe(no_mangle)]
pub extern "C" fn pundaliket_f32_to_word(bits: u32, out: &mut [u8]) -> u32
    ensures { Sends (sent_of (taken_reply (taken_of bits)) out.old) result out.new }
{
    pundaliket::pundaliket_f32_to_word(bits, out)
}

// Words, four bytes each, to f64s, eight bytes each. Returns the refusal: 18, 8, then 4; `out` is written on 0 alone.
// `number` always is: on 0 how many f64s were brought to 24 bits, else the first bad entry, counted from 1, or 0.
#[unsafe(no_mangle)]
pub extern "C" fn pundaliket_words_to_f64(words: &[u8], out: &mut [u8], number: &mut u64) -> u32
    ensures { Turns (words_turn words.now out.old) result number.new
        out.new }
{
    pundaliket::pundaliket_words_to_f64(words, out, number)
}

// F64s to words, under a rule. Returns the refusal: 17, 18, 8, then 10, 15, 12, 11; `out` is written on 0 alone.
#[unsafe(no_mangle)]
pub extern "C" fn pundaliket_f64_to_words(
    rule: u32,
    floats: &[u8],
    out: &mut [u8],
    number: &mut u64,
) -> u32
    ensures { Turns (floats_turn rule floats.now out.old) result number.new
        out.new }
{
    pundaliket::pundaliket_f64_to_words(rule, floats, out, number)
}

// One formula, its letters' words beside it, to a record file at the front of `file`. Returns 65,536 times the
// refusal plus the bytes written; a refusal writes nothing.
#[unsafe(no_mangle)]
pub extern "C" fn pundaliket_formula(text: &[u8], letters: &[u8], file: &mut [u8]) -> u32
    ensures { Writes (formula_call text.now letters.now file.old) result
        file.new }
{
    pundaliket::pundaliket_formula(text, letters, file)
}
