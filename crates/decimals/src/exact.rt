// The exact text of a magnitude over 2^88 with its sign: `2.5`, `-0.0009765625`, `0.0`. The whole part has no zeros
// before it, and the places behind the point end with the last that is not 0, or are one 0.
ghost use Rattle.std.specs.Prelude.{◌≡◌, ◌+◌, ◌≤◌, ltb, eqb, length};
ghost use Rattle.listing.specs.Text.{spelled, Adds};
ghost use Rattle.decimals.specs.Magnitude.{whole_of, WholeFits, rest_of, RestFits, size_in, Fits};
ghost use Rattle.decimals.specs.Exact.{places_text, sign_text, exact_text};

use crate::magnitude::{Magnitude, Rest, Whole, last_digit, next_digit};
use listing::text::{add, digit};

// The most digits before the point, the most behind it, and room for a text.
const WHOLE_DIGITS: usize = 32;

const MOST_PLACES: usize = 88;

// Whether a whole number has one digit.
fn below_ten(w: Whole) -> bool
    requires { WholeFits w }
    ensures { result ≡ ltb (whole_of w) 10 }
{
    if w.high == 0 {
        return w.low < 10;
    }
    false
}

// The digits of a whole number, at most so many.
fn add_whole(out: &mut [u8], place: usize, w: Whole, count: usize) -> usize
    requires { WholeFits w × (place + count ≤ length out.old) }
    ensures { Adds (spelled count (whole_of w)) out.old out.new place result }
{
    if count == 0 {
        return place;
    }
    let t = last_digit(w);
    let last = [digit(t.digit)];
    if below_ten(w) {
        return add(out, place, &last);
    }
    let before = t.whole;
    let next = add_whole(out, place, before, count - 1);
    add(out, next, &last)
}

// Whether nothing is left below one.
fn is_nothing(r: Rest) -> bool
    ensures { result ≡ eqb (rest_of r) 0 }
{
    if r.high == 0 {
        return r.low == 0;
    }
    false
}

// The places of what is left below one, at most so many.
fn add_places(out: &mut [u8], place: usize, r: Rest, count: usize) -> usize
    requires { RestFits r × (place + count ≤ length out.old) }
    ensures { Adds (places_text count (rest_of r)) out.old out.new place result }
{
    let mut left = r;
    let mut i = 0;
    while i < count {
        let t = next_digit(left);
        out[place + i] = digit(t.digit);
        i += 1;
        left = t.rest;
        if is_nothing(left) {
            return place + i;
        }
    }
    place + i
}

// Whether a magnitude is zero.
fn is_zero(m: Magnitude) -> bool
    requires { Fits m }
    ensures { result ≡ eqb (size_in m) 0 }
{
    if m.whole.high == 0 {
        if m.whole.low == 0 {
            let rest = m.rest;
            return is_nothing(rest);
        }
    }
    false
}

// A minus sign before what is below zero.
fn add_sign(out: &mut [u8], place: usize, neg: bool, m: Magnitude) -> usize
    requires { Fits m × (place + 1 ≤ length out.old) }
    ensures { Adds (sign_text neg (size_in m)) out.old out.new place result }
{
    if !neg {
        return place;
    }
    if is_zero(m) {
        return place;
    }
    add(out, place, b"-")
}

// The exact text.
pub fn add_exact(out: &mut [u8], place: usize, neg: bool, m: Magnitude) -> usize
    requires { Fits m × (place + 122 ≤ length out.old) }
    ensures adds { Adds (exact_text neg (size_in m)) out.old out.new place result }
    ensures upper_bound { result ≤ place + 122 }
{
    let whole = m.whole;
    let rest = m.rest;
    let a = add_sign(out, place, neg, m);
    let b = add_whole(out, a, whole, WHOLE_DIGITS);
    let c = add(out, b, b".");
    add_places(out, c, rest, MOST_PLACES)
}
