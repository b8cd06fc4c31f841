// MUL, MUU and DIV on two words of n bits, by sign and magnitude.
ghost use Rattle.std.specs.Prelude.{◌≡◌, ◌*◌, ◌^◌, ◌≤◌, ◌<◌, Ok, IfSome};
ghost use Rattle.std.specs.Float.Ieee.{unlike};
ghost use Rattle.terms.specs.Width.{bits_of};
ghost use Rattle.fixed.specs.Fixed.{half};
ghost use Rattle.fixed.specs.Parts.{Words as AreWords, negative_at};
ghost use Rattle.bit_serial.specs.Engine.{least_answer, sizes_of, mul_answer, muu_answer, div_answer};

use super::Worked;
use super::divide::divided;
use super::multiply::multiplied;
use fixed::parts::{
    either_least, exceeds, low_bits, magnitude, overflow_bit, unlike_signs, upper_bits,
};
use terms::Width;

// Two words of at most 32 bits, with half of the number of such words: the word of the least value.
#[derive(Clone, Copy)]
pub struct Words {
    pub half: u32,
    pub bits: u32,
    pub b: u32,
    pub a: u32,
    ghost are_words: { AreWords half b a },
    ghost narrow: { bits ≤ 32 },
}

impl Words {
    // Two words of a width.
    pub fn of(width: Width, b: u32, a: u32) -> Words
        requires { (b < 2 ^ bits_of width) × (a < 2 ^ bits_of width) }
        ensures half { result.half ≡ half (bits_of width) }
        ensures bits { result.bits ≡ bits_of width }
        ensures b { result.b ≡ b }
        ensures a { result.a ≡ a }
    {
        Words {
            half: super::half_of(width),
            bits: width.bits(),
            b,
            a,
        }
    }

    // The magnitudes of both, unless one is the word of the least value.
    pub fn sizes(self) -> Option<(u64, u64)>
        ensures sizes { result ≡ sizes_of self.half self.b self.a }
        ensures small { IfSome result (λ p. (p.0 ≤ self.half) × (p.1 ≤ self.half)) }
    {
        if either_least(self.half, self.b, self.a) {
            return None;
        }
        Some((magnitude(self.half, self.b), magnitude(self.half, self.a)))
    }

    // Whether one of them is negative and the other not, so that a result has a minus.
    fn is_negative(self) -> bool
        ensures { result ≡ unlike (negative_at self.half self.b) (negative_at self.half self.a) }
    {
        unlike_signs(self.half, self.b, self.a)
    }

    // Of a least operand: the least word and overflow, and no step is made.
    fn least(self) -> Worked
        ensures { Ok result ≡ least_answer self.half }
    {
        Worked {
            word: self.half,
            error: terms::OVERFLOW,
            steps: 0,
        }
    }

    // MUL: the low half of the product.
    #[tactic(auto, unfolding(crate::specs::Engine::mul_answer))]
    pub fn mul(self) -> Worked
        ensures { Ok result ≡ mul_answer self.half self.bits self.b self.a }
    {
        let Some((x, y)) = self.sizes() else {
            return self.least();
        };
        let p = multiplied(x, y, self.bits);
        let neg = self.is_negative();
        Worked {
            word: low_bits(self.half, neg, p.partial),
            error: overflow_bit(exceeds(self.half, neg, p.partial)),
            steps: p.steps,
        }
    }

    // MUU: the upper half of the product, rounded down.
    #[tactic(auto, unfolding(crate::specs::Engine::muu_answer))]
    pub fn muu(self) -> Worked
        ensures { Ok result ≡ muu_answer self.half self.bits self.b self.a }
    {
        let Some((x, y)) = self.sizes() else {
            return self.least();
        };
        let p = multiplied(x, y, self.bits);
        Worked {
            word: upper_bits(self.half, self.is_negative(), p.partial),
            error: 0,
            steps: p.steps,
        }
    }

    // DIV: the quotient cut toward zero; B where A is zero.
    #[tactic(auto, unfolding(crate::specs::Engine::div_answer))]
    pub fn div(self) -> Worked
        ensures { Ok result ≡ div_answer self.half self.bits self.b self.a }
    {
        if self.a == 0 {
            return Worked {
                word: self.b,
                error: terms::DIVIDE_BY_ZERO,
                steps: 0,
            };
        }
        let Some((x, y)) = self.sizes() else {
            return self.least();
        };
        let s = divided(x, y, self.bits);
        Worked {
            word: low_bits(self.half, self.is_negative(), s.quotient),
            error: 0,
            steps: self.bits - s.left,
        }
    }
}
