// The events of a bench tape as octets (document 01, "The bench tape"): their kinds, their lengths, and what a tape itself can do wrong.
#![tactic(auto)]

mod event;

pub use event::{refused, width};
