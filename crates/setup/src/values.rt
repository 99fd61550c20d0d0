// A setup from its eight numbers, in the paper's order.
ghost use Rattle.setup.specs.Values.{Makes};

use crate::{Milliseconds, Setup};

impl Setup {
    pub fn of(
        rule: u8,
        taken: u8,
        usage: u8,
        history: u16,
        milliseconds: u32,
        rate: u16,
        paths: u8,
        difference: u32,
    ) -> Setup
        ensures { Makes rule taken usage history milliseconds rate paths difference result }
    {
        Setup {
            rule,
            taken,
            usage,
            history,
            timeout: Milliseconds(milliseconds),
            rate,
            paths,
            difference,
        }
    }
}
