// MUL, MUU, DIV and CHS: by sign and magnitude, at either width.
// Stays as it is: a struct of h, b and a is no plainer, since CHS and the parts take h alone and one caller would build it.
ghost use Rattle.std.specs.Prelude.{◌≡◌, ◌*◌, ◌<◌, ◌≤◌};
ghost use Rattle.fixed.specs.Fixed.{mul, muu, div, chs};
ghost use Rattle.fixed.specs.Parts.{Words};

use super::Fixed;
use super::parts::{
    either_least, exceeds, least_word, low_bits, magnitude, overflow_bit, unlike_signs, upper_bits,
};

// SMUL and DMUL: the low half of B x A.
pub fn mul(h: u32, b: u32, a: u32) -> Fixed
    requires { Words h b a }
    ensures { result ≡ mul h b a }
{
    if either_least(h, b, a) {
        return least_word(h);
    }
    let p = magnitude(h, b) * magnitude(h, a);
    let neg = unlike_signs(h, b, a);
    let word = low_bits(h, neg, p);
    let over = exceeds(h, neg, p);
    Fixed {
        word,
        error: overflow_bit(over),
        carry: false,
    }
}

// SMUU and DMUU: the upper half of B x A, rounded down.
pub fn muu(h: u32, b: u32, a: u32) -> Fixed
    requires { Words h b a }
    ensures { result ≡ muu h b a }
{
    if either_least(h, b, a) {
        return least_word(h);
    }
    let p = magnitude(h, b) * magnitude(h, a);
    let neg = unlike_signs(h, b, a);
    Fixed {
        word: upper_bits(h, neg, p),
        error: 0,
        carry: false,
    }
}

// SDIV and DDIV: B / A cut toward zero; B where A is zero.
pub fn div(h: u32, b: u32, a: u32) -> Fixed
    requires { Words h b a }
    ensures { result ≡ div h b a }
{
    if a == 0 {
        return Fixed {
            word: b,
            error: terms::DIVIDE_BY_ZERO,
            carry: false,
        };
    }
    if either_least(h, b, a) {
        return least_word(h);
    }
    let q = magnitude(h, b) / magnitude(h, a);
    let neg = unlike_signs(h, b, a);
    Fixed {
        word: low_bits(h, neg, q),
        error: 0,
        carry: false,
    }
}

// CHSS and CHSD: 0 - A; the least value stays.
pub fn chs(h: u32, a: u32) -> Fixed
    requires { (0 < h) × (h ≤ 2147483648) × (a < 2 * h) }
    ensures { result ≡ chs h a }
{
    let word = low_bits(h, a < h, magnitude(h, a));
    Fixed {
        word,
        error: overflow_bit(a == h),
        carry: false,
    }
}
