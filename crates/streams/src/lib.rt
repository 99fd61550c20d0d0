// A lent stream table checked whole, and a frame looked up in it.
//
// Whatever octets come in, each call answers or refuses, as document 01 has it: the table's first fault before the frame's.
#![tactic(auto)]

mod table;

pub use table::{check, lookup};
