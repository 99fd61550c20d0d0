// A state from its numbers, as they were stored.
ghost use Rattle.recovery.specs.Storage.{Stores};

use crate::{Left, State};
use counters::Counters;
use marks::Marks;
use rules::First;
use setup::Setup;

impl State {
    // The one way to a state by its numbers. Any will do here: whether the state is sound is what every call on it asks first.
    pub fn stored(
        setup: Setup,
        newest: u16,
        marks: Marks,
        first: First,
        take_any: bool,
        left: u64,
        counters: Counters,
        base: u64,
    ) -> State
        ensures { Stores setup newest marks first take_any left counters base result }
    {
        State {
            setup,
            newest,
            marks,
            first,
            take_any,
            left: Left(left),
            counters,
            base,
        }
    }
}
