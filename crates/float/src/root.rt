// SQRT. The mantissa is moved up until its root has 24 digits; what is left over the square tells
// on which side of the next half the root lies, and two more digits keep that for the cut.
ghost use Rattle.std.specs.Prelude.{◌≡◌, true, ◌+◌, ◌*◌, ◌^◌, ◌≤◌, ◌<◌};
ghost use Rattle.float.specs.Word.{proper};
ghost use Rattle.float.specs.Root.{sqrt};
ghost use Rattle.float.specs.Traced.{Beyond, Traced};

use super::Flagged;
use super::cut::cut_word;
use super::word::{biased_of, is_negative, mantissa_of};
use terms::Rule;

// 3 * 2^22, between the least and the greatest root of 24 digits: where the search begins.
const START: u64 = 0xc0_0000;
// The mantissa is moved up by so many bits, one less at an odd exponent.
const RAISED: u32 = 24;
// Twice the place of the root's unit above the fine unit is the exponent plus 64 plus this: 2 * 200 - 88 - 24 - 4.
const UNITS: u32 = 284;

// The mean of s and v / s: never below the root of v, and below s where s is above the root.
fn mean(s: u64, v: u64) -> u64
    requires { (0 < s) × (s < 2 ^ 48) × (0 < v) × (v < 2 ^ 48) }
    ensures { Beyond v s result × (0 < result) × (result < 2 ^ 48) }
{
    (s + v / s) / 2
}

// The whole part of the root of v: means, each of the last, as long as they fall.
fn whole_root(v: u64) -> u64
    requires { (0 < v) × (v < 2 ^ 48) }
    ensures { (result * result ≤ v) × (v < (result + 1) * (result + 1)) }
{
    let mut s = mean(START, v);
    let mut t = mean(s, v);
    while t < s {
        s = t;
        t = mean(s, v);
    }
    s
}

// Four times the root of v, of which s is the whole part: 4s where it is exact, else the odd number
// on its side of 4s + 2, that is of s and a half.
fn traced(s: u64, v: u64) -> u64
    requires { (s < 2 ^ 24) × (s * s ≤ v) × (v < (s + 1) * (s + 1)) }
    ensures { Traced (16 * v) result }
{
    let rest = v - s * s;
    if rest == 0 {
        return 4 * s;
    }
    if rest <= s {
        return 4 * s + 1;
    }
    4 * s + 3
}

// SQRT of a proper word: its root, or a negative word as it is and the error of a negative root.
pub fn sqrt(rule: Rule, a: u32) -> Flagged
    requires { proper a ≡ true }
    ensures { result ≡ sqrt rule a }
{
    if is_negative(a) {
        return Flagged {
            word: a,
            error: terms::NEGATIVE_ROOT,
        };
    }
    let m = mantissa_of(a);
    if m == 0 {
        return Flagged { word: 0, error: 0 };
    }
    let e = biased_of(a);
    let odd = e % 2;
    let v = m << (RAISED - odd);
    let t = traced(whole_root(v), v);
    cut_word(rule, false, t, (e + UNITS + odd) / 2)
}
