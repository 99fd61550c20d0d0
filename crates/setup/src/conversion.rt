// Full ticks of a timeout.
ghost use Rattle.setup.specs.Conversion.{Converts, Counts};

use crate::{Milliseconds, Ticks};

impl Milliseconds {
    // The only way from milliseconds to ticks. Any two factors have an answer: the product stays below 2^48. By div_ceil a step of a state,
    // which asks for this each time, would look at the rest of the division too.
    #[tactic(auto, unfolding(crate::specs::Conversion::full_ticks, crate::specs::Conversion::ticks_of))]
    pub fn ticks(self, rate: u16) -> Ticks
        ensures { Converts self rate result }
    {
        let scaled = (self.0 as u64) * (rate as u64);
        Ticks((scaled + 999) / 1000)
    }
}

impl Ticks {
    // How many they are. There is no way back.
    pub fn count(self) -> u64
        ensures { Counts self result }
    {
        self.0
    }
}
