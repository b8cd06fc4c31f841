// The `sheets` slice: the one place where its layout is known.
ghost use Rattle.std.specs.Prelude.{◌≡◌, ◌++◌, ◌+◌, ◌≤◌, ◌<◌, length};
ghost use Rattle.numbers.specs.Little.{le4};
ghost use Rattle.sheet_bytes.specs.Ledger.{sheets_bytes, most_sheets, is_sheets, is_open, closed_in, laid_at, dropped};
ghost use Rattle.sheet_bytes.specs.Ledger.{opened, kept_in, closed, with_bit, open_serial, open_words};

use numbers::put_word;

pub const SHEETS_BYTES: usize = 1303;

pub const MOST_SHEETS: u8 = 64;

pub const PLACE_BYTES: usize = 20;

pub const OPEN_AT: usize = 1281;

pub const SERIAL_AT: usize = 1282;

pub const KEPT_AT: usize = 1286;

pub const WORDS_AT: usize = 1287;

// Whether the bytes stand for sheets.
#[tactic(auto, using(crate::proofs::Ledgers::bad_length, crate::proofs::Ledgers::bad_number, crate::proofs::Ledgers::bad_open, crate::proofs::Ledgers::bad_kept, crate::proofs::Ledgers::good))]
pub fn is_sheets(sheets: &[u8]) -> bool
    ensures { result ≡ is_sheets sheets.now }
{
    if sheets.len() != SHEETS_BYTES {
        return false;
    }
    if MOST_SHEETS < sheets[0] {
        return false;
    }
    if 1 < sheets[OPEN_AT] {
        return false;
    }
    if 15 < sheets[KEPT_AT] {
        return false;
    }
    true
}

// Whether a sheet is open.
pub fn is_open(sheets: &[u8]) -> bool
    requires { length sheets.now ≡ sheets_bytes }
    ensures { result ≡ is_open sheets.now }
{
    sheets[OPEN_AT] == 1
}

// Bytes laid over a slice from a place on.
fn lay(d: &mut [u8], at: usize, s: &[u8])
    requires { at + length s.now ≤ length d.old }
    ensures { d.new ≡ laid_at d.old at s.now }
{
    let mut i = 0;
    while i < s.len() {
        d[at + i] = s[i];
        i += 1;
    }
}

// No sheet open.
pub fn drop_open(sheets: &mut [u8])
    requires { length sheets.old ≡ sheets_bytes }
    ensures { sheets.new ≡ dropped sheets.old }
{
    let none = [0u8; 22];
    lay(sheets, OPEN_AT, &none);
}

// A sheet opened for a serial of four bytes.
pub fn open(sheets: &mut [u8], serial: &[u8])
    requires { (length sheets.old ≡ sheets_bytes) × (length serial.now ≡ 4) }
    ensures { sheets.new ≡ opened sheets.old serial.now }
{
    let mut fresh = [0u8; 22];
    fresh[0] = 1;
    lay(&mut fresh, 1, serial);
    lay(sheets, OPEN_AT, &fresh);
}

// A number with the bit of a slot set.
#[tactic(auto, using(crate::proofs::Bits::has_room))]
fn with_bit(slot: u8, n: u8) -> u8
    requires { slot < 4 }
    ensures { result ≡ with_bit slot n }
{
    let weight = 1u8 << slot;
    if n / weight % 2 == 0 {
        return n + weight;
    }
    n
}

// A word kept in a slot.
pub fn keep(sheets: &mut [u8], slot: u8, word: u32)
    requires { (length sheets.old ≡ sheets_bytes) × (slot < 4) }
    ensures { sheets.new ≡ kept_in sheets.old slot (le4 word) }
{
    let before = sheets[KEPT_AT];
    let mut bytes = [0u8; 4];
    put_word(&mut bytes, word as usize);
    lay(sheets, WORDS_AT + 4 * slot as usize, &bytes);
    sheets[KEPT_AT] = with_bit(slot, before);
}

// The serial and the four words of the open sheet, as a line of the list.
fn open_line(sheets: &[u8]) -> [u8; 20]
    requires { length sheets.now ≡ sheets_bytes }
    ensures { result ≡ open_serial sheets.now ++ open_words sheets.now }
{
    let mut line = [0u8; 20];
    lay(&mut line, 0, &sheets[SERIAL_AT..KEPT_AT]);
    lay(&mut line, 4, &sheets[WORDS_AT..SHEETS_BYTES]);
    line
}

// The open sheet as the next line of the list.
pub fn close(sheets: &mut [u8])
    requires { (length sheets.old ≡ sheets_bytes) × (closed_in sheets.old < most_sheets) }
    ensures { sheets.new ≡ closed sheets.old }
{
    let n = sheets[0];
    let line = open_line(sheets);
    lay(sheets, 1 + PLACE_BYTES * n as usize, &line);
    sheets[0] = n + 1;
    drop_open(sheets);
}
