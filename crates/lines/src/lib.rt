// The lines of a bench tape's output (document 01, "The bench tape"), each written to a lent page behind what it holds already. A call
// takes any page and any place: where the longest line would not fit, the page stays as it is and the place is the answer.
#![tactic(auto)]

mod page;
mod words;

pub use page::{counts, fault, write};

// The line of an event, in the order of the words that lines are made of.
#[derive(Clone, Copy, Debug, PartialEq, Eq)]
pub enum Line {
    Ok,
    Pass,
    Discard,
    Tick,
    Reset,
    LatentReset,
    LatentOk,
    LatentError,
}
