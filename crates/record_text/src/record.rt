// The line of a record's bytes, where that line says the record.
ghost use Rattle.std.specs.Prelude.{◌≡◌, true, ◌≤◌, ◌<◌, length, take};
ghost use Rattle.record_text.specs.Line.{text_room, record_room};
ghost use Rattle.record_text.specs.Meaning.{Says};

use crate::line::{Line, RECORD_ROOM, read_line};
use crate::told::{add_told, byte_at};
use terms::Rule;

// Room for the text of any record.
pub const TEXT_ROOM: usize = 768;

// Whether a line says the record of these bytes.
fn says(line: &[u8], bytes: &[u8]) -> bool
    ensures { result ≡ true → Says line.now bytes.now }
{
    let mut back = [0u8; RECORD_ROOM];
    let said = read_line(Rule::Cut, line, &mut back);
    match said {
        Line::Record(n) => check::same(bytes, &back[..n]),
        Line::Empty => false,
        Line::Wrong(_, _) => false,
    }
}

// The line of a record, and how many bytes it has; none where it would not say the record.
pub fn tell_record(bytes: &[u8], out: &mut [u8]) -> usize
    requires { (4 ≤ length bytes.now) × (length bytes.now ≤ record_room) × (text_room ≤ length out.old) }
    ensures { (result ≤ text_room) × (0 < result → Says (take result out.new) bytes.now) }
{
    let kind = byte_at(bytes, 2) as u16 + byte_at(bytes, 3) as u16 * 256;
    let n = add_told(out, 0, kind, &bytes[4..]);
    if says(&out[..n], bytes) {
        return n;
    }
    0
}
