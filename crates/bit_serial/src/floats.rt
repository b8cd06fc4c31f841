// FMUL and FDIV, by sign, exponent and mantissa: the mantissas a bit at a time, then the one cut.
ghost use Rattle.std.specs.Prelude.{◌≡◌, ◌≤◌, ◌<◌, ◌^◌, IfOk};
ghost use Rattle.bit_serial.specs.Engine.{marked, mantissas_of, fmul_answer, fdiv_answer};

use super::Worked;
use super::divide::divided;
use super::multiply::multiplied;
use float::cut::cut_word;
use float::word::{biased_of, is_negative, is_proper, mantissa_of};
use terms::{Refusal, Rule};

// A mantissa's bits, all of which a product's steps may need.
pub const MANTISSA_BITS: u32 = 24;
// The digits of a quotient that either rule needs: 24 that the mantissa keeps, one more that tells
// the side of the half, and one since the first of them may be 0.
pub const QUOTIENT_DIGITS: u32 = 26;
// A unit of a product of two mantissas, each times 2^88, is so many places above the fine unit: 200 - 176.
const PRODUCT_UNIT: u32 = 24;
// A unit of a quotient's digits and its mark is so many places above the fine unit: 200 - 26.
const QUOTIENT_UNIT: u32 = 174;

// The mantissas of both operands, each of which must be proper.
pub fn mantissas(b: u32, a: u32) -> Result<(u64, u64), Refusal>
    ensures mantissas { result ≡ mantissas_of b a }
    ensures small { IfOk result (λ p. (p.0 < 2 ^ 24) × (p.1 < 2 ^ 24)) }
{
    if is_proper(b) && is_proper(a) {
        return Ok((mantissa_of(b), mantissa_of(a)));
    }
    Err(Refusal::Improper)
}

// FMUL: B x A.
#[tactic(auto, unfolding(crate::specs::Engine::fmul_answer))]
pub fn fmul(rule: Rule, b: u32, a: u32) -> Result<Worked, Refusal>
    ensures { result ≡ fmul_answer rule b a }
{
    let (x, y) = mantissas(b, a)?;
    let p = multiplied(x, y, MANTISSA_BITS);
    let neg = is_negative(b) != is_negative(a);
    let place = biased_of(b) + biased_of(a) + PRODUCT_UNIT;
    let r = cut_word(rule, neg, p.partial, place);
    Ok(Worked {
        word: r.word,
        error: r.error,
        steps: p.steps,
    })
}

// The digits of a quotient and one more, 1 where a rest is left.
fn mark(quotient: u64, rest: u64) -> u64
    requires { quotient ≤ 2 ^ 26 }
    ensures { result ≡ marked quotient rest }
{
    2 * quotient + u64::from(rest != 0)
}

// FDIV: B / A, or B and divide by zero.
#[tactic(auto, unfolding(crate::specs::Engine::fdiv_answer))]
pub fn fdiv(rule: Rule, b: u32, a: u32) -> Result<Worked, Refusal>
    ensures { result ≡ fdiv_answer rule b a }
{
    let (x, y) = mantissas(b, a)?;
    if y == 0 {
        return Ok(Worked {
            word: b,
            error: terms::DIVIDE_BY_ZERO,
            steps: 0,
        });
    }
    let s = divided(x << (QUOTIENT_DIGITS - 1), y, QUOTIENT_DIGITS);
    let t = mark(s.quotient, s.rest);
    let neg = is_negative(b) != is_negative(a);
    let place = biased_of(b) + QUOTIENT_UNIT - biased_of(a);
    let r = cut_word(rule, neg, t, place);
    Ok(Worked {
        word: r.word,
        error: r.error,
        steps: QUOTIENT_DIGITS - s.left,
    })
}
