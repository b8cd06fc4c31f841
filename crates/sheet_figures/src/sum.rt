// The exact sum of float values, as two sums of magnitudes of 24 bytes each, the lowest byte first.
ghost use Rattle.std.specs.Prelude.{◌≡◌, ◌+◌, ◌*◌, ◌^◌, ◌≤◌, ◌<◌, length, nat_abs};
ghost use Rattle.float.specs.Word.{size88};
ghost use Rattle.sheet_bytes.specs.Ledger.{sheets_bytes, most_sheets, closed_in, lines_of};
ghost use Rattle.sheet_figures.specs.Limbs.{le, sum_limit, up, down, ups, downs};
ghost use Rattle.sheet_figures.specs.Figures.{words, sum88};
ghost use Rattle.sheet_figures.specs.Digits.{sign_of};

use crate::sheet::{WORD, number_at};
use float::word::is_proper;

// The bytes of a sum.
const SUM_BYTES: usize = 24;

// The characters of a sign.
const PLUS: u8 = 43;

const MINUS: u8 = 45;

// A number added from a byte on; it carries what a byte does not hold.
fn add_at(sum: [u8; 24], at: usize, x: u32) -> [u8; 24]
    requires { (at ≤ 24) × (le sum + x * 256 ^ at < sum_limit) }
    ensures { le result ≡ le sum + x * 256 ^ at }
{
    let mut acc = sum;
    let mut left = x;
    let mut i = at;
    while i < SUM_BYTES {
        let here = acc[i] as u64 + left as u64;
        acc[i] = (here % 256) as u8;
        left = (here / 256) as u32;
        i += 1;
    }
    acc
}

// The magnitude of a word, times 2 ^ 88, added.
fn add_size(sum: [u8; 24], word: u32) -> [u8; 24]
    requires { le sum + size88 word < sum_limit }
    ensures { le result ≡ le sum + size88 word }
{
    let biased = (word / 0x100_0000 + 64) % 128;
    let mantissa = word % 0x100_0000;
    add_at(sum, (biased / 8) as usize, mantissa << (biased % 8))
}

// One sum less another, and 1 where it was the smaller.
#[derive(Clone, Copy)]
pub struct Difference {
    pub bytes: [u8; 24],
    pub borrowed: u32,
}

// a less b, byte by byte; what is borrowed at the end is 1 where b is the greater.
fn less(a: [u8; 24], b: [u8; 24]) -> Difference
    ensures { (le result.bytes + le b ≡ le a + result.borrowed * sum_limit) × (le result.bytes < sum_limit)
        × (result.borrowed ≤ 1) }
{
    let mut bytes = a;
    let mut borrowed = 0;
    let mut i = 0;
    while i < SUM_BYTES {
        let here = 256 + bytes[i] as u32 - b[i] as u32 - borrowed;
        bytes[i] = (here % 256) as u8;
        borrowed = 1 - here / 256;
        i += 1;
    }
    Difference { bytes, borrowed }
}

// The magnitudes above zero and those below.
#[derive(Clone, Copy)]
pub struct Sums {
    pub plus: [u8; 24],
    pub minus: [u8; 24],
}

// A word's value added where it is proper.
fn gather(s: Sums, word: u32) -> Sums
    requires { (le s.plus + up word < sum_limit) × (le s.minus + down word < sum_limit) }
    ensures { (le result.plus ≡ le s.plus + up word) × (le result.minus ≡ le s.minus + down word) }
{
    if !is_proper(word) {
        return s;
    }
    let before = s.plus;
    let below = s.minus;
    if 0x8000_0000 <= word {
        let minus = add_size(below, word);
        return Sums {
            plus: before,
            minus,
        };
    }
    let plus = add_size(before, word);
    Sums { plus, minus: below }
}

// The sums of the words in slot 0 of all lines.
fn gather_all(sheets: &[u8]) -> Sums
    requires { (length sheets.now ≡ sheets_bytes) × (closed_in sheets.now ≤ most_sheets) }
    ensures { (le result.plus ≡ ups (words (lines_of sheets.now)))
        × (le result.minus ≡ downs (words (lines_of sheets.now))) }
{
    let n = sheets[0] as usize;
    let mut s = Sums {
        plus: [0u8; 24],
        minus: [0u8; 24],
    };
    let mut i = 0;
    while i < n {
        s = gather(s, number_at(sheets, i, WORD));
        i += 1;
    }
    s
}

// A sum: the character of its sign, and its magnitude.
#[derive(Clone, Copy)]
pub struct Total {
    pub sign: u8,
    pub size: [u8; 24],
}

// The sum of the proper words of slot 0.
pub fn sum_of(sheets: &[u8]) -> Total
    requires { (length sheets.now ≡ sheets_bytes) × (closed_in sheets.now ≤ most_sheets) }
    ensures { (result.sign ≡ sign_of (sum88 (lines_of sheets.now)))
        × (le result.size ≡ nat_abs (sum88 (lines_of sheets.now))) }
{
    let s = gather_all(sheets);
    let above = s.plus;
    let below = s.minus;
    let d = less(above, below);
    if d.borrowed == 0 {
        let size = d.bytes;
        return Total { sign: PLUS, size };
    }
    let e = less(below, above);
    let size = e.bytes;
    Total { sign: MINUS, size }
}
