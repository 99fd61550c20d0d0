// A bench tape run against the layer (document 01, "The bench tape"): lent octets in, the lines as octets into a lent buffer. Any tape has
// an answer: a fault is a line of the output, and the one refusal is 8, where the buffer is too short for the output.
#![tactic(auto)]

mod player;

pub use player::run;
