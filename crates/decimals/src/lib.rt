// Float words as the decimal numbers that people write: the exact text of a word's value or of a sum of them,
// the text of the fewest places that gives a word back, and a text of digits and a point as a word by either rule.
#![tactic(auto)]

pub mod bring;
pub mod ends;
pub mod exact;
pub mod line;
pub mod magnitude;
pub mod read;
pub mod short;
pub mod sum;
