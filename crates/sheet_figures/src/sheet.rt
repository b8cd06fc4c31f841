// What a line of the list says: a serial and the word of slot 0.
ghost use Rattle.std.specs.Prelude.{◌≡◌, [], ◌≤◌, ◌<◌, length, get_or};
ghost use Rattle.numbers.specs.Little.{four_at};
ghost use Rattle.sheet_bytes.specs.Ledger.{sheets_bytes, most_sheets, closed_in, lines_of};

use numbers::four_at;
use sheet_bytes::bytes::PLACE_BYTES;

// Where they begin in a line.
pub const SERIAL: usize = 0;

pub const WORD: usize = 4;

// One of them, of the i-th line.
pub fn number_at(sheets: &[u8], i: usize, from: usize) -> u32
    requires { (length sheets.now ≡ sheets_bytes) × (closed_in sheets.now ≤ most_sheets)
        × (i < closed_in sheets.now) × (from ≤ 4) }
    ensures { result ≡ four_at (get_or (lines_of sheets.now) i []) from }
{
    four_at(sheets, 1 + PLACE_BYTES * i + from)
}
