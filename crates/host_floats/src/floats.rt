// A buffer of f64s to one of words, brought to 24 bits by a rule where it has to be.
ghost use Rattle.std.specs.Prelude.{◌≡◌, ◌++◌, ◌+◌, ◌*◌, ◌/◌, ◌^◌, ◌≤◌, ◌<◌, length, drop};
ghost use Rattle.numbers.specs.Little.{le4, eight_at};
ghost use Rattle.host_floats.specs.Double.{inward_of};
ghost use Rattle.host_floats.specs.Buffers.{word_size, float_size, inward_entry, float_entries, reply_to, bytes_of};
ghost use Rattle.host_floats.specs.Buffers.{floats_turn, Turns};

use super::buffer::{BufferReply, Entry, FLOAT_SIZE, WORD_SIZE, away};
use super::entry::{Inward, f64_to_word};
use numbers::{eight_at, put_word};
use terms::{Refusal, Rule, is_rule, number, rule_of};

// What the f64 at a place says under a rule.
fn entry_at(rule: Rule, floats: &[u8], at: usize) -> Entry
    requires { at + float_size ≤ length floats.now }
    ensures { (result ≡ inward_entry (inward_of rule (eight_at floats.now at))) × (result.rounded ≤ 1) }
{
    match f64_to_word(rule, eight_at(floats, at)) {
        Inward::Exact(word) => Entry {
            refusal: 0,
            bits: word as u64,
            rounded: 0,
        },
        Inward::Rounded(word, _) => Entry {
            refusal: 0,
            bits: word as u64,
            rounded: 1,
        },
        Inward::Refused(refusal) => Entry {
            refusal: number(refusal),
            bits: 0,
            rounded: 0,
        },
    }
}

// The whole buffer looked through.
fn look(rule: Rule, floats: &[u8]) -> BufferReply
    ensures { result ≡ reply_to (float_entries rule floats.now) }
{
    let n = floats.len() / FLOAT_SIZE;
    let mut i = 0;
    let mut rounded = 0;
    while i < n {
        let e = entry_at(rule, floats, i * FLOAT_SIZE);
        let refusal = e.refusal;
        if refusal != 0 {
            return BufferReply {
                refusal,
                number: i + 1,
            };
        }
        rounded += e.rounded;
        i += 1;
    }
    BufferReply {
        refusal: 0,
        number: rounded,
    }
}

// The word of each f64, in turn.
fn write(rule: Rule, floats: &[u8], out: &mut [u8])
    requires { length floats.now / float_size * word_size ≤ length out.old }
    ensures { out.new ≡ bytes_of le4 (float_entries rule floats.now)
        ++ drop (length floats.now / float_size * word_size) out.old }
{
    let n = floats.len() / FLOAT_SIZE;
    let mut i = 0;
    while i < n {
        let e = entry_at(rule, floats, i * FLOAT_SIZE);
        let at = i * WORD_SIZE;
        let end = at + WORD_SIZE;
        put_word(&mut out[at..end], e.bits as usize);
        i += 1;
    }
}

// F64s to words: 17, 18, 8, then 10, 15, 12 or 11 with the first f64 that is refused; `out` is written on 0 alone.
pub fn f64_to_words(rule: u32, floats: &[u8], out: &mut [u8]) -> BufferReply
    ensures { Turns (floats_turn rule floats.now out.old) result.refusal result.number
        out.new }
{
    if !is_rule(rule) {
        return away(Refusal::BadRule);
    }
    if floats.len() % FLOAT_SIZE != 0 {
        return away(Refusal::PartEntry);
    }
    if out.len() < floats.len() / FLOAT_SIZE * WORD_SIZE {
        return away(Refusal::NoRoom);
    }
    let how = rule_of(rule);
    let reply = look(how, floats);
    let refusal = reply.refusal;
    if refusal == 0 {
        write(how, floats, out);
    }
    reply
}
