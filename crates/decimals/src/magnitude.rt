// A magnitude of up to 24 bytes over 2^88, as its whole part and what is left below one, each in two numbers;
// the last digit of the one, the next digit of the other.
ghost use Rattle.std.specs.Prelude.{◌≡◌, ◌+◌, ◌*◌, ◌^◌, ◌≤◌, ◌<◌, take, drop};
ghost use Rattle.float.specs.Word.{size88};
ghost use Rattle.decimals.specs.Magnitude.{WholeFits, LastDigit, RestFits, NextDigit, size_in, Fits, bytes_at};

use float::word::{biased_of, mantissa_of};

// 2^48 and 2^40: what the low numbers stay below.
const WHOLE_STEP: u64 = 0x1_0000_0000_0000;

const REST_STEP: u64 = 0x100_0000_0000;

// A whole number of 104 bits.
#[derive(Clone, Copy)]
pub struct Whole {
    pub high: u64,
    pub low: u64,
}

// So many parts of 2^88 to one.
#[derive(Clone, Copy)]
pub struct Rest {
    pub high: u64,
    pub low: u64,
}

// Both.
#[derive(Clone, Copy)]
pub struct Magnitude {
    pub whole: Whole,
    pub rest: Rest,
}

// A whole number without its last digit, and that digit.
#[derive(Clone, Copy)]
pub struct Tenth {
    pub whole: Whole,
    pub digit: u8,
}

// The next digit below one, and what is left below it, ten times as much.
#[derive(Clone, Copy)]
pub struct Tenfold {
    pub digit: u8,
    pub rest: Rest,
}

// The last digit taken off.
pub fn last_digit(w: Whole) -> Tenth
    requires { WholeFits w }
    ensures { LastDigit w result }
{
    let here = w.high % 10 * WHOLE_STEP + w.low;
    Tenth {
        whole: Whole {
            high: w.high / 10,
            low: here / 10,
        },
        digit: (here % 10) as u8,
    }
}

// The next digit taken out.
pub fn next_digit(r: Rest) -> Tenfold
    requires { RestFits r }
    ensures { NextDigit r result }
{
    let below = r.low * 10;
    let here = r.high * 10 + below / REST_STEP;
    Tenfold {
        digit: (here / WHOLE_STEP) as u8,
        rest: Rest {
            high: here % WHOLE_STEP,
            low: below % REST_STEP,
        },
    }
}

// The magnitude whose 2^88-fold is x times 2^0, 2^40, 2^80 or 2^88.
fn at_zero(x: u64) -> Magnitude
    ensures { (size_in result ≡ x) × Fits result }
{
    Magnitude {
        whole: Whole { high: 0, low: 0 },
        rest: Rest {
            high: x / REST_STEP,
            low: x % REST_STEP,
        },
    }
}

fn at_forty(x: u64) -> Magnitude
    ensures { (size_in result ≡ x * 2 ^ 40) × Fits result }
{
    Magnitude {
        whole: Whole {
            high: 0,
            low: x / WHOLE_STEP,
        },
        rest: Rest {
            high: x % WHOLE_STEP,
            low: 0,
        },
    }
}

fn at_eighty(x: u64) -> Magnitude
    requires { x < 2 ^ 56 }
    ensures { (size_in result ≡ x * 2 ^ 80) × Fits result }
{
    Magnitude {
        whole: Whole {
            high: 0,
            low: x / 256,
        },
        rest: Rest {
            high: x % 256 * REST_STEP,
            low: 0,
        },
    }
}

fn at_one(x: u64) -> Magnitude
    ensures { (size_in result ≡ x * 2 ^ 88) × Fits result }
{
    Magnitude {
        whole: Whole {
            high: x / WHOLE_STEP,
            low: x % WHOLE_STEP,
        },
        rest: Rest { high: 0, low: 0 },
    }
}

// The magnitude of a word: its mantissa, moved up by its exponent plus 64.
pub fn of_word(word: u32) -> Magnitude
    ensures { (size_in result ≡ size88 word) × Fits result }
{
    let m = mantissa_of(word);
    let b = biased_of(word);
    if b < 40 {
        return at_zero(m << b);
    }
    if b < 80 {
        return at_forty(m << (b - 40));
    }
    if b < 88 {
        return at_eighty(m << (b - 80));
    }
    at_one(m << (b - 88))
}

// The number of up to seven bytes of a slice, the lowest first.
fn bytes_at(bytes: [u8; 24], at: usize, count: usize) -> u64
    requires { (count ≤ 7) × (at + count ≤ 24) }
    ensures { (result ≡ bytes_at (take count (drop at bytes))) × (result < 256 ^ count) }
{
    let mut value: u64 = 0;
    let mut left = count;
    while 0 < left {
        left -= 1;
        value = value * 256 + bytes[at + left] as u64;
    }
    value
}

// The magnitude of 24 bytes, the lowest first.
pub fn of_bytes(bytes: [u8; 24]) -> Magnitude
    ensures { (size_in result ≡ bytes_at bytes) × Fits result }
{
    let low = bytes_at(bytes, 0, 5);
    let high = bytes_at(bytes, 5, 6);
    let below = bytes_at(bytes, 11, 6);
    let above = bytes_at(bytes, 17, 7);
    Magnitude {
        whole: Whole {
            high: above,
            low: below,
        },
        rest: Rest { high, low },
    }
}
