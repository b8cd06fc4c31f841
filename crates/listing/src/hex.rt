// Hex digits of either case read as a number, as many as a text has, up to eight; and the last digits of a number to a
// base, added at a place.
ghost use Rattle.std.specs.Prelude.{◌≡◌, ◌+◌, ◌*◌, ◌^◌, ◌≤◌, ◌<◌, length};
ghost use Rattle.listing.specs.Text.{Adds};
ghost use Rattle.listing.specs.Hex.{digit_value, hex_of, Below, digits_to};

use crate::text::digit;

// The number of hex digits, or none.
#[derive(Clone, Copy)]
pub enum Hex {
    Number(u32),
    Nothing,
}

// The value of a hex digit of either case, 16 for a character that is none.
pub fn digit_value(c: u8) -> u8
    ensures { (result ≡ digit_value c) × (result ≤ 16) }
{
    match c {
        48..=57 => c - 48,
        65..=70 => c - 55,
        97..=102 => c - 87,
        _ => 16,
    }
}

// The number that a text of hex digits stands for.
pub fn read_hex(text: &[u8]) -> Hex
    requires { length text.now ≤ 8 }
    ensures { (result ≡ hex_of text.now) × Below (16 ^ length text.now) result }
{
    let mut value: u64 = 0;
    let mut i = 0;
    while i < text.len() {
        let d = digit_value(text[i]);
        if 16 <= d {
            return Hex::Nothing;
        }
        value = value * 16 + (d as u64);
        i += 1;
    }
    Hex::Number(value as u32)
}

// The last digits of a number to a base, so many of them.
pub fn add_digits(out: &mut [u8], place: usize, n: u64, base: u64, count: usize) -> usize
    requires { (0 < base) × (base ≤ 16) × (place + count ≤ length out.old) }
    ensures { Adds (digits_to base count n) out.old out.new place result }
{
    let mut rest = n;
    let mut i = count;
    while 0 < i {
        i -= 1;
        out[place + i] = digit((rest % base) as u8);
        rest /= base;
    }
    place + count
}
