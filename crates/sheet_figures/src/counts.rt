// The counts: different serials, serials on more than one line, words that are not proper.
ghost use Rattle.std.specs.Prelude.{◌≡◌, cond, ◌≤◌, length, drop};
ghost use Rattle.sheet_bytes.specs.Ledger.{sheets_bytes, most_sheets, closed_in, lines_of};
ghost use Rattle.sheet_figures.specs.Figures.{serials, count, different, repeated, improper};

use crate::sheet::{SERIAL, WORD, number_at};
use float::word::is_proper;

// 1 where a test passed.
fn one(test: bool) -> u8
    ensures { (result ≡ cond test 1 0) × (result ≤ 1) }
{
    if test {
        return 1;
    }
    0
}

// On how many lines, from one on, a serial stands.
fn count_from(sheets: &[u8], from: usize, serial: u32) -> u8
    requires { (length sheets.now ≡ sheets_bytes) × (closed_in sheets.now ≤ most_sheets)
        × (from ≤ closed_in sheets.now) }
    ensures { result ≡ count serial (serials (drop from (lines_of sheets.now))) }
{
    let n = sheets[0] as usize;
    let mut found = 0;
    let mut at = from;
    while at < n {
        found += one(serial == number_at(sheets, at, SERIAL));
        at += 1;
    }
    found
}

// How many serials are different, and how many of them stand on more than one line.
#[derive(Clone, Copy)]
pub struct Serials {
    pub different: u8,
    pub repeated: u8,
}

// A serial is counted on the last line on which it stands.
pub fn count_serials(sheets: &[u8]) -> Serials
    requires { (length sheets.now ≡ sheets_bytes) × (closed_in sheets.now ≤ most_sheets) }
    ensures { (result.different ≡ different (lines_of sheets.now))
        × (result.repeated ≡ repeated (lines_of sheets.now)) }
{
    let n = sheets[0] as usize;
    let mut different = 0;
    let mut repeated = 0;
    let mut i = 0;
    while i < n {
        let serial = number_at(sheets, i, SERIAL);
        let last = one(count_from(sheets, i + 1, serial) == 0);
        let again = one(2 <= count_from(sheets, 0, serial));
        different += last;
        repeated += last * again;
        i += 1;
    }
    Serials {
        different,
        repeated,
    }
}

// How many words of slot 0 are not proper.
pub fn count_improper(sheets: &[u8]) -> u8
    requires { (length sheets.now ≡ sheets_bytes) × (closed_in sheets.now ≤ most_sheets) }
    ensures { result ≡ improper (lines_of sheets.now) }
{
    let n = sheets[0] as usize;
    let mut found = 0;
    let mut i = 0;
    while i < n {
        found += one(!is_proper(number_at(sheets, i, WORD)));
        i += 1;
    }
    found
}
