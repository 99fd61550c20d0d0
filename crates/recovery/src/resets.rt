// A fresh state, and a reset.
ghost use Rattle.std.specs.Prelude.{◌≡◌};
ghost use Rattle.recovery.specs.Resets.{cleared, reset_state, Begins, Resets};

use crate::{Left, State, Stepped};
use counters::Counters;
use octets::Refusal;
use rules::First;
use setup::Setup;

// What fresh and reset have in common.
fn clear(setup: Setup, counters: Counters, base: u64) -> State
    ensures { result ≡ cleared setup counters base }
{
    State {
        setup,
        newest: 65535,
        marks: marks::none(),
        first: First(0),
        take_any: true,
        left: Left(0),
        counters,
        base,
    }
}

impl State {
    // A state that counts no reset yet, or the setup's refusal.
    #[tactic(auto, unfolding(crate::specs::Resets::begun_from, crate::specs::Resets::fresh_state))]
    pub fn fresh(setup: Setup) -> Result<State, Refusal>
        ensures { Begins setup result }
    {
        setup.check()?;
        Ok(clear(setup, counters::none(), 0))
    }

    // The reset itself, of the call and of a timeout.
    #[tactic(auto, unfolding(crate::specs::Resets::reset_state))]
    pub(crate) fn anew(self) -> State
        ensures { result ≡ reset_state self }
    {
        clear(self.setup, counters::count_reset(self.counters), self.base)
    }

    #[tactic(auto, unfolding(crate::specs::Resets::reset_of))]
    pub fn reset(self) -> Stepped<()>
        ensures { Resets self result }
    {
        if !self.is_sound() {
            return Stepped {
                answer: Err(Refusal::Unsound),
                state: self,
            };
        }
        Stepped {
            answer: Ok(()),
            state: self.anew(),
        }
    }
}
