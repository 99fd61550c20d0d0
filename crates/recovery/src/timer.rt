// The timer: the one rule by which a packet restarts it, and the tick.
ghost use Rattle.std.specs.Prelude.{◌≡◌};
ghost use Rattle.recovery.specs.Timer.{restarted, Remain, Times};

use crate::{Left, State, Stepped, Ticked};
use octets::Refusal;
use rules::Effect;
use setup::Setup;

// Ticks left after a packet, from its effect: one that passes restarts the timer, and in individual use every one does.
#[tactic(auto, using(std::proofs::lemmas::Bool::Decides::nat_tests), unfolding(crate::specs::Timer::restarted, setup::specs::Range::is_individual))]
pub(crate) fn left_after(e: Effect, setup: Setup, left: Left) -> Left
    ensures { result ≡ restarted e.passes setup left }
{
    if e.passes | (setup.usage == 1) {
        Left(setup.full().count())
    } else {
        left
    }
}

impl Left {
    // How many they are.
    pub fn count(self) -> u64
        ensures { Remain self result }
    {
        self.0
    }
}

impl State {
    // 0 stays 0; from 1 it becomes 0 and a reset follows, which sets it; else less 1.
    #[tactic(auto, using(std::proofs::lemmas::Bool::Decides::nat_tests), unfolding(crate::specs::Timer::tick_of, crate::specs::Timer::timed, crate::specs::Resets::reset_state))]
    pub fn tick(mut self) -> Stepped<Ticked>
        ensures { Times self result }
    {
        if !self.is_sound() {
            return Stepped {
                answer: Err(Refusal::Unsound),
                state: self,
            };
        }
        let ticks = self.left.0;
        if ticks == 0 {
            return Stepped {
                answer: Ok(Ticked::Tick),
                state: self,
            };
        }
        if ticks == 1 {
            return Stepped {
                answer: Ok(Ticked::Reset),
                state: self.anew(),
            };
        }
        self.left.0 = ticks - 1;
        Stepped {
            answer: Ok(Ticked::Tick),
            state: self,
        }
    }
}
