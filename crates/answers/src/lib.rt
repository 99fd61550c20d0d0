// What a call on a recovery state answers, whichever call it is, and the answer or the refusal as one number.
#![tactic(auto)]

mod numbers;

pub use numbers::{code, number_of};

// A tick that timed out is a timeout.
#[derive(Clone, Copy, Debug, PartialEq, Eq)]
pub enum Answer {
    Pass,
    Discard,
    Tick,
    Timeout,
    Reset,
    LatentReset,
    Agrees,
    Error,
}
