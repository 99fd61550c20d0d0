// A recovery state in lent words of 64 bits: a format and one for each field, read from the first thirty-one of them and put into these.
// Any words at all may be lent.
#![tactic(auto)]

mod fields;

pub use fields::{keep, keep_short, read, read_short};
