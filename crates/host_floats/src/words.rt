// A buffer of words to one of f64s.
ghost use Rattle.std.specs.Prelude.{◌≡◌, ◌++◌, ◌+◌, ◌*◌, ◌/◌, ◌≤◌, length, drop};
ghost use Rattle.numbers.specs.Little.{le8, four_at};
ghost use Rattle.host_floats.specs.Double.{outward_of};
ghost use Rattle.host_floats.specs.Buffers.{word_size, float_size, outward_entry, word_entries, reply_to, bytes_of};
ghost use Rattle.host_floats.specs.Buffers.{words_turn, Turns};

use super::buffer::{BufferReply, Entry, FLOAT_SIZE, WORD_SIZE, away};
use super::entry::{Outward, word_to_f64};
use numbers::{four_at, put_eight};
use terms::{Refusal, number};

// What the word at a place says.
fn entry_at(words: &[u8], at: usize) -> Entry
    requires { at + word_size ≤ length words.now }
    ensures { result ≡ outward_entry (outward_of (four_at words.now at)) }
{
    match word_to_f64(four_at(words, at)) {
        Outward::Float(x) => Entry {
            refusal: 0,
            bits: f64::to_bits(x),
            rounded: 0,
        },
        Outward::Refused(refusal) => Entry {
            refusal: number(refusal),
            bits: 0,
            rounded: 0,
        },
    }
}

// The whole buffer looked through.
fn look(words: &[u8]) -> BufferReply
    ensures { result ≡ reply_to (word_entries words.now) }
{
    let n = words.len() / WORD_SIZE;
    let mut i = 0;
    while i < n {
        let e = entry_at(words, i * WORD_SIZE);
        let refusal = e.refusal;
        if refusal != 0 {
            return BufferReply {
                refusal,
                number: i + 1,
            };
        }
        i += 1;
    }
    BufferReply {
        refusal: 0,
        number: 0,
    }
}

// The f64 of each word, in turn.
fn write(words: &[u8], out: &mut [u8])
    requires { length words.now / word_size * float_size ≤ length out.old }
    ensures { out.new ≡ bytes_of le8 (word_entries words.now)
        ++ drop (length words.now / word_size * float_size) out.old }
{
    let n = words.len() / WORD_SIZE;
    let mut i = 0;
    while i < n {
        let e = entry_at(words, i * WORD_SIZE);
        let at = i * FLOAT_SIZE;
        let end = at + FLOAT_SIZE;
        put_eight(&mut out[at..end], e.bits);
        i += 1;
    }
}

// Words to f64s: 18, 8, then 4 with the first word that is not proper; `out` is written on 0 alone.
pub fn words_to_f64(words: &[u8], out: &mut [u8]) -> BufferReply
    ensures { Turns (words_turn words.now out.old) result.refusal result.number
        out.new }
{
    if words.len() % WORD_SIZE != 0 {
        return away(Refusal::PartEntry);
    }
    if out.len() < words.len() / WORD_SIZE * FLOAT_SIZE {
        return away(Refusal::NoRoom);
    }
    let reply = look(words);
    let refusal = reply.refusal;
    if refusal == 0 {
        write(words, out);
    }
    reply
}
