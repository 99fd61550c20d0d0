// Below the doors for C, which open one room each (`streams_c` opens `streams`): how they tell an answer.
//
// What the answer of a call that can refuse means, at every door: it is one number. 0 is done, 1 to 99 is the papers' refusal ("When the
// layer says no"), and from 100 on it names an answer of the call. A record is lent as words of 64 bits, one for each field, and is put
// there as a whole or not at all. Whatever lengths and values come in, a call answers or refuses, and a refusal leaves everything lent as
// it was.
#![tactic(auto)]

mod answers;

pub use answers::{code, told};
