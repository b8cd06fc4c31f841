// The shift's figures, from the bytes of a list of sheets: how many lines, different serials, serials on more than one
// line and improper words, and the exact sum of the proper ones as a sign and 48 hex digits.
#![tactic(auto)]

pub mod counts;
pub mod sheet;
pub mod sum;
pub mod text;

ghost use Rattle.std.specs.Prelude.{◌≡◌, ◌∷◌, ◌≤◌, length, drop};
ghost use Rattle.sheet_bytes.specs.Ledger.{sheets_bytes, most_sheets, closed_in, lines_of};
ghost use Rattle.sheet_figures.specs.Telling.{figures_bytes, written, figures_of, FiguresCalls};

use crate::counts::{count_improper, count_serials};
use crate::sum::sum_of;
use crate::text::put_digits;
use sheet_bytes::bytes::is_sheets;
use terms::{Refusal, number};

// The bytes of the figures: four counts, the sign, 48 digits.
pub const FIGURES_BYTES: usize = 53;

// The four counts and the sign, in front.
fn put_front(out: &mut [u8], lines: u8, different: u8, repeated: u8, improper: u8, sign: u8)
    requires { length out.old ≡ figures_bytes }
    ensures { out.new ≡ lines ∷ different ∷ repeated ∷ improper ∷ sign ∷ drop 5 out.old }
{
    out[0] = lines;
    out[1] = different;
    out[2] = repeated;
    out[3] = improper;
    out[4] = sign;
}

// The figures of bytes that stand for sheets.
fn write(sheets: &[u8], out: &mut [u8])
    requires { (length sheets.now ≡ sheets_bytes) × (closed_in sheets.now ≤ most_sheets)
        × (length out.old ≡ figures_bytes) }
    ensures { out.new ≡ written (lines_of sheets.now) }
{
    let s = count_serials(sheets);
    let improper = count_improper(sheets);
    let total = sum_of(sheets);
    let size = total.size;
    put_digits(&mut out[5..], size);
    put_front(
        out,
        sheets[0],
        s.different,
        s.repeated,
        improper,
        total.sign,
    );
}

// The figures of a `sheets` slice: 8 where `out` has another length, then 13; on 0 alone is `out` written.
pub fn put_figures(sheets: &[u8], out: &mut [u8]) -> u32
    ensures { FiguresCalls (figures_of sheets.now out.old) result out.new }
{
    if out.len() != FIGURES_BYTES {
        return number(Refusal::NoRoom) as u32;
    }
    if !is_sheets(sheets) {
        return number(Refusal::BadState) as u32;
    }
    write(sheets, out);
    number(Refusal::Done) as u32
}
