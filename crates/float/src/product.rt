// FMUL and FDIV. A product of two mantissas is whole in 64 bits; a quotient is found to 64 bits
// and made odd where a remainder is left, so that it is cut as the exact one.
ghost use Rattle.std.specs.Prelude.{◌≡◌, true};
ghost use Rattle.float.specs.Word.{proper};
ghost use Rattle.float.specs.Float.{mul, div};

use super::Flagged;
use super::cut::{cut_word, jam};
use super::word::{biased_of, is_negative, mantissa_of};
use terms::Rule;

// A product of two magnitudes, each times 2^88, is so many places above the fine unit: 200 - 176.
const PRODUCT_UNIT: u32 = 24;
// 2^40: the dividend's mantissa is moved up by so many bits before it is divided.
const RAISED: u64 = 0x100_0000_0000;
// A quotient of a dividend raised is so many places above the fine unit: 200 - 40.
const QUOTIENT_UNIT: u32 = 160;

// FMUL: B x A.
#[tactic(auto, using(crate::proofs::product::ProductCut::mul_law))]
pub fn fmul(rule: Rule, b: u32, a: u32) -> Flagged
    ensures { result ≡ mul rule b a }
{
    let neg = is_negative(b) != is_negative(a);
    let p = mantissa_of(b) * mantissa_of(a);
    let x = biased_of(b) + biased_of(a) + PRODUCT_UNIT;
    cut_word(rule, neg, p, x)
}

// FDIV of proper words: B / A, or B and divide by zero.
#[tactic(auto, using(crate::proofs::product::ProductCut::div_none, crate::proofs::product::ProductCut::div_law))]
pub fn fdiv(rule: Rule, b: u32, a: u32) -> Flagged
    requires { (proper b ≡ true) × (proper a ≡ true) }
    ensures { result ≡ div rule b a }
{
    let ma = mantissa_of(a);
    if ma == 0 {
        return Flagged {
            word: b,
            error: terms::DIVIDE_BY_ZERO,
        };
    }
    let v = mantissa_of(b) * RAISED;
    let t = jam(v / ma, v % ma);
    let x = biased_of(b) + QUOTIENT_UNIT - biased_of(a);
    let neg = is_negative(b) != is_negative(a);
    cut_word(rule, neg, t, x)
}
