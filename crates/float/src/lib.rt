// The float commands on words: FADD, FSUB, FMUL, FDIV, FLTD, FLTS, FIXD, FIXS, CHSF, SQRT.
// Each forms the exact value, or a number of 64 bits that stands for it, and cuts it once.
// No stack and no status here: words in, a word and an error out.
#![tactic(auto)]

pub mod convert;
pub mod cut;
pub mod product;
pub mod root;
pub mod sum;
pub mod word;

// A word and its error: 0 for none, or one of the numbers that `terms` names.
#[derive(Clone, Copy)]
pub struct Flagged {
    pub word: u32,
    pub error: u8,
}
