// Records as people write them, one line a record: `push 7.5 2.5`, `FMUL sr`, `pop 4`, `open 42`. A record's kind and
// payload are told as such a line, and a line is read as the record that it says. What is told of a record reads back
// as that record; a line that says none is answered by the place of what is wrong and why. A file of records has a
// trace: the state after each of them.
#![tactic(auto)]

pub mod kinds;
pub mod line;
pub mod named;
pub mod names;
pub mod record;
pub mod told;
pub mod trace;
pub mod values;
pub mod words;
