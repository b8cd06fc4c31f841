// The parts of a formula's text: `sum`, `product` and `factor` call each other, with less text and
// fewer levels left at each call. Each reads its part from a place on and writes it in postfix order.
// A place is one number, so that a level holds few: 512 times the bytes of postfix before it, and the
// bytes of the text before it.
ghost use Rattle.std.specs.Prelude.{◌≡◌, ◌+◌, ◌≤◌, ◌<◌, length, take, drop, get_or, set};
ghost use Rattle.std.proofs.lemmas.List.Edits.{sets};
ghost use Rattle.formula.specs.Reader.{constant_of, leaf_of, factor_of, product_of, sum_of};
ghost use Rattle.formula.specs.Told.{most_text, at_of, end_of, nowhere, closed_at, longer_of, sign_code, sign_of};
ghost use Rattle.formula.specs.Told.{Asks, Reads, ReadsBy};

use crate::words::{are_digits, byte_at, is_letter};

// The place after no part: past every text, so that nothing can be joined to it.
pub const NOWHERE: u32 = 511;

// The command of a minus, CHSF.
const MINUS: u8 = 0x15;

// What joins operands: plus and minus the products of a sum, times and divide the factors of a product.
#[derive(Clone, Copy)]
pub enum Rank {
    Sum,
    Product,
}

// Where a place lies in the text.
pub fn at_of(place: u32) -> usize
    ensures { result ≡ at_of place }
{
    (place % 512) as usize
}

// Where it lies in the postfix.
pub fn end_of(place: u32) -> usize
    ensures { result ≡ end_of place }
{
    (place / 512) as usize
}

// Nine bytes of the text, a hash and its digits, to the postfix.
fn copy(text: &[u8], out: &mut [u8; 256], at: usize, end: usize)
    requires { (length text.now ≤ most_text) × (at + 9 ≤ length text.now) × (end ≤ at) }
    ensures { out.new ≡ sets out.old end (take 9 (drop at text.now)) }
{
    let mut i = 0;
    while i < 9 {
        out[end + i] = text[at + i];
        i += 1;
    }
}

// A hash, and behind it eight digits.
fn constant(text: &[u8], out: &mut [u8; 256], place: u32) -> u32
    requires { Asks text.now place × (get_or text.now (at_of place) 0 ≡ 0x23) }
    ensures { Reads text.now
        (record { place = place; next = result; before = out.old; after = out.new })
        (constant_of (drop (at_of place + 1) text.now)) }
{
    let at = at_of(place);
    if text.len() - at < 9 {
        return NOWHERE;
    }
    let first = at + 1;
    let next = at + 9;
    if !are_digits(&text[first..next]) {
        return NOWHERE;
    }
    copy(text, out, at, end_of(place));
    place + 9 * 513
}

// A letter, to the postfix.
fn letter(out: &mut [u8; 256], place: u32, b: u8) -> u32
    requires { place < 131072 }
    ensures { (result ≡ place + 513) × (out.new ≡ set out.old (end_of place) b) }
{
    let end = end_of(place);
    out[end] = b;
    place + 513
}

// A letter, or a hash with eight digits.
fn leaf(text: &[u8], out: &mut [u8; 256], place: u32) -> u32
    requires { Asks text.now place }
    ensures { ReadsBy leaf_of text.now
        (record { place = place; next = result; before = out.old; after = out.new }) }
{
    let b = byte_at(text, at_of(place));
    if is_letter(b) {
        return letter(out, place, b);
    }
    if b == b'#' {
        return constant(text, out, place);
    }
    NOWHERE
}

// A command behind its operands, where the last of them is whole.
fn joined(out: &mut [u8; 256], right: u32, code: u8) -> u32
    requires { right < 131072 }
    ensures { (result ≡ longer_of right) × ((right ≡ nowhere → ⊥) → out.new ≡ set out.old
        (end_of right) code) }
{
    if right == NOWHERE {
        return NOWHERE;
    }
    let end = end_of(right);
    out[end] = code;
    right + 512
}

// Brackets round a formula, which the closing one ends.
fn bracketed(text: &[u8], place: u32) -> u32
    requires { (length text.now ≤ most_text) × (place < 131072) }
    ensures { result ≡ closed_at text.now place }
{
    if byte_at(text, at_of(place)) != b')' {
        return NOWHERE;
    }
    place + 1
}

// The code of the command of a sign of a rank that stands at a place, 0 where none does.
fn sign_at(text: &[u8], place: u32, rank: Rank) -> u8
    ensures { result ≡ sign_code (sign_of rank (get_or text.now (at_of place) 0)) }
{
    let b = byte_at(text, at_of(place));
    match rank {
        Rank::Sum => match b {
            b'+' => 0x10,
            b'-' => 0x11,
            _ => 0,
        },
        Rank::Product => match b {
            b'*' => 0x12,
            b'/' => 0x13,
            _ => 0,
        },
    }
}

// A sum: products joined by plus or minus, left to right.
#[cycle(factor_product_sum)]
pub fn sum(text: &[u8], out: &mut [u8; 256], place: u32, depth: u32) -> u32
    requires { Asks text.now place }
    ensures { ReadsBy (sum_of depth) text.now
        (record { place = place; next = result; before = out.old; after = out.new }) }
{
    let mut left = product(text, out, place, depth);
    loop {
        let code = sign_at(text, left, Rank::Sum);
        if code == 0 {
            return left;
        }
        let right = product(text, out, left + 1, depth);
        left = joined(out, right, code);
    }
}

// A product: factors joined by `*` or `/`, left to right.
#[cycle(factor_product_sum)]
fn product(text: &[u8], out: &mut [u8; 256], place: u32, depth: u32) -> u32
    requires { Asks text.now place }
    ensures { ReadsBy (product_of depth) text.now
        (record { place = place; next = result; before = out.old; after = out.new }) }
{
    let mut left = factor(text, out, place, depth);
    loop {
        let code = sign_at(text, left, Rank::Product);
        if code == 0 {
            return left;
        }
        let right = factor(text, out, left + 1, depth);
        left = joined(out, right, code);
    }
}

// A factor: a leaf, or, with a level left, a minus before a factor or brackets round a sum.
#[cycle(factor_product_sum)]
fn factor(text: &[u8], out: &mut [u8; 256], place: u32, depth: u32) -> u32
    requires { Asks text.now place }
    ensures { ReadsBy (factor_of depth) text.now
        (record { place = place; next = result; before = out.old; after = out.new }) }
{
    if depth == 0 {
        return leaf(text, out, place);
    }
    let b = byte_at(text, at_of(place));
    if b == b'-' {
        let p = factor(text, out, place + 1, depth - 1);
        return joined(out, p, MINUS);
    }
    if b == b'(' {
        let p = sum(text, out, place + 1, depth - 1);
        return bracketed(text, p);
    }
    leaf(text, out, place)
}
