// The decimal of the fewest places that gives a word back by a rule. What stands before the point stays whole; of the
// two decimals of so many places round the word's value the nearer is tried first, by the reading itself.
ghost use Rattle.std.specs.Prelude.{◌≡◌, ◌&&◌, ◌+◌, ◌*◌, ◌/◌, ◌%◌, ◌^◌, ◌≤◌, ◌<◌, leb, eqb};
ghost use Rattle.decimals.specs.Magnitude.{rest_of, RestFits};
ghost use Rattle.decimals.specs.Short.{gives_word, try_of, or_else, around_of, Triable, short_from, Brief};

use crate::bring::{Brought, bring};
use crate::magnitude::{Rest, next_digit};
use float::word::is_negative;
use terms::Rule;

// A number below this may have one digit more.
const ROOM: u64 = 100_000_000_000_000_000;

const MOST_PLACES: u32 = 27;
// 2^47, half of a rest's upper number.
const HALF: u64 = 0x8000_0000_0000;

// A decimal without its sign, or none.
#[derive(Clone, Copy)]
pub enum Short {
    Decimal {
        whole: u64,
        fraction: u64,
        places: u32,
    },
    Nothing,
}

// Whether what was brought is the word.
fn is_word(word: u32, brought: Brought) -> bool
    ensures { result ≡ gives_word word brought }
{
    match brought {
        Brought::Exact(w) => w == word,
        Brought::Rounded(w) => w == word,
        Brought::Refused(_) => false,
    }
}

// A decimal that gives the word back, or none.
fn tried(rule: Rule, word: u32, whole: u64, fraction: u64, places: u32) -> Short
    requires { (places ≤ 27) × (fraction < 10 ^ places) × (fraction < 10 ^ 19) }
    ensures { (result ≡ try_of rule word (whole * 10 ^ places + fraction) places) × Brief result }
{
    if is_word(
        word,
        bring(rule, is_negative(word), whole, fraction, places),
    ) {
        return Short::Decimal {
            whole,
            fraction,
            places,
        };
    }
    Short::Nothing
}

// The same of the decimal above.
fn tried_above(rule: Rule, word: u32, whole: u64, fraction: u64, places: u32, nines: bool) -> Short
    requires { Triable whole fraction places nines }
    ensures { (result ≡ try_of rule word (whole * 10 ^ places + fraction + 1) places) × Brief result }
{
    if nines {
        return tried(rule, word, whole + 1, 0, places);
    }
    tried(rule, word, whole, fraction + 1, places)
}

// The first of two that is a decimal.
fn first_of(a: Short, b: Short) -> Short
    requires { Brief a × Brief b }
    ensures { (result ≡ or_else a b) × Brief result }
{
    match a {
        Short::Decimal {
            whole,
            fraction,
            places,
        } => Short::Decimal {
            whole,
            fraction,
            places,
        },
        Short::Nothing => b,
    }
}

// The two decimals round the value, the upper one first or the lower.
fn around(
    rule: Rule,
    word: u32,
    whole: u64,
    fraction: u64,
    places: u32,
    nines: bool,
    up: bool,
) -> Short
    requires { Triable whole fraction places nines }
    ensures { (result ≡ around_of rule word (whole * 10 ^ places + fraction) places up) × Brief result }
{
    let above = tried_above(rule, word, whole, fraction, places, nines);
    let here = tried(rule, word, whole, fraction, places);
    if up {
        return first_of(above, here);
    }
    first_of(here, above)
}

// Whether all digits are nines, with one more.
fn still_nines(nines: bool, digit: u8) -> bool
    ensures { result ≡ nines && eqb digit 9 }
{
    if nines {
        return digit == 9;
    }
    false
}

// The decimal of the fewest places that gives the word of this value back.
pub fn shortest(rule: Rule, word: u32, whole: u64, rest: Rest) -> Short
    requires { RestFits rest × (whole < 2 ^ 63) }
    ensures { (result ≡ short_from 27 rule word whole (rest_of rest) 0) × Brief result }
{
    let mut fraction: u64 = 0;
    let mut places: u32 = 0;
    let mut nines = true;
    let mut left = rest;
    while places < MOST_PLACES {
        if ROOM <= fraction {
            return Short::Nothing;
        }
        let t = next_digit(left);
        left = t.rest;
        fraction = fraction * 10 + t.digit as u64;
        places += 1;
        nines = still_nines(nines, t.digit);
        let found = around(
            rule,
            word,
            whole,
            fraction,
            places,
            nines,
            HALF <= left.high,
        );
        if let Short::Decimal {
            whole: w,
            fraction: f,
            places: p,
        } = found
        {
            return Short::Decimal {
                whole: w,
                fraction: f,
                places: p,
            };
        }
    }
    Short::Nothing
}
