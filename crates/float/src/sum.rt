// FADD and FSUB. The smaller addend is shifted to the place of the greater, 39 bits below it kept
// and the last made odd where bits are lost, so that the sum is cut as the exact one.
ghost use Rattle.std.specs.Prelude.{◌≡◌, true, ◌/◌, ◌%◌, ◌^◌, ◌≤◌, ◌<◌, ◌+ℤ◌};
ghost use Rattle.numbers.specs.Signed.{with_sign};
ghost use Rattle.float.specs.Word.{proper, size88, value};
ghost use Rattle.float.specs.Cut.{cut};
ghost use Rattle.float.specs.Float.{add, sub};
ghost use Rattle.float.specs.Jam.{Jammed};
ghost use Rattle.float.specs.Addend.{Addend, AddendOf, addend_size};

use super::Flagged;
use super::cut::{cut_word, jam};
use super::word::{is_negative, mantissa_of};
use terms::Rule;

// 2^39: the bits kept below the greater addend, whose mantissa then reaches bit 62.
const SPARE: u64 = 0x80_0000_0000;
// A unit of m * SPARE at the exponent plus 64 is so many places above the fine unit: 200 - 88 - 39.
const UNIT: u32 = 73;

// v shifted right by d places, made odd where bits are lost.
#[tactic(auto, using(crate::proofs::sum::SumCut::jam_far))]
fn shifted(v: u64, d: u32) -> u64
    requires { (v < 2 ^ 63) × (d < 128) }
    ensures { Jammed (v / 2 ^ d) (v % 2 ^ d) result }
{
    if d < 64 {
        return jam(v >> d, v % (1 << d));
    }
    jam(0, v)
}

// A proper word's magnitude as one number that grows with it: the exponent plus 64 above the
// 24 bits of the mantissa, and 0 for zero.
#[tactic(auto, using(crate::proofs::sum::SumCut::addend_zero, crate::proofs::sum::SumCut::addend_word))]
fn addend_of(w: u32) -> u32
    requires { proper w ≡ true }
    ensures { AddendOf w result }
{
    if w == 0 {
        return 0;
    }
    (w % 0x8000_0000 + 0x4000_0000) % 0x8000_0000
}

// The sum of two addends with their signs, the first of which is not the smaller.
fn add_lower(rule: Rule, neg: bool, hi: u32, other: bool, lo: u32) -> Flagged
    requires { Addend hi × Addend lo × (lo ≤ hi) }
    ensures { result ≡ cut rule (with_sign neg (addend_size hi) +ℤ with_sign other (addend_size lo)) (2 ^ 88) }
{
    let e = hi / 0x100_0000;
    let big = mantissa_of(hi) * SPARE;
    let small = shifted(mantissa_of(lo) * SPARE, e - lo / 0x100_0000);
    let differ = neg != other;
    if differ {
        return cut_word(rule, neg, big - small, e + UNIT);
    }
    cut_word(rule, neg, big + small, e + UNIT)
}

// The sum of B and of A's magnitude with a sign, both proper words.
#[tactic(auto, using(crate::proofs::sum::SumCut::sum_law, crate::proofs::sum::SumCut::swapped_law))]
fn add_signed(rule: Rule, b: u32, neg: bool, a: u32) -> Flagged
    requires { (proper b ≡ true) × (proper a ≡ true) }
    ensures { result ≡ cut rule (value b +ℤ with_sign neg (size88 a)) (2 ^ 88) }
{
    let first = is_negative(b);
    let x = addend_of(b);
    let y = addend_of(a);
    if y <= x {
        return add_lower(rule, first, x, neg, y);
    }
    add_lower(rule, neg, y, first, x)
}

// FADD of proper words: B + A.
#[tactic(auto, using(crate::proofs::sum::SumCut::add_law))]
pub fn fadd(rule: Rule, b: u32, a: u32) -> Flagged
    requires { (proper b ≡ true) × (proper a ≡ true) }
    ensures { result ≡ add rule b a }
{
    add_signed(rule, b, is_negative(a), a)
}

// FSUB of proper words: B - A.
#[tactic(auto, using(crate::proofs::sum::SumCut::sub_law))]
pub fn fsub(rule: Rule, b: u32, a: u32) -> Flagged
    requires { (proper b ≡ true) × (proper a ≡ true) }
    ensures { result ≡ sub rule b a }
{
    add_signed(rule, b, !is_negative(a), a)
}
