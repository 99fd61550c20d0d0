// One turn of the bench (document 01, "The bench tape"): an event of the tape is checked, run and given its line, or the end is reached.
// Any octets, any place and any state have an outcome.
#![tactic(auto)]

mod turn;

use counters::Counters;
use lines::Line;
use recovery::State;
pub use turn::take_turn;

// What comes of a turn that has no fault: a line with the next state, or at the end the counters.
#[derive(Clone, Copy)]
pub enum Outcome {
    Next(Line, State),
    End(Counters),
}
