// The latent reset and the latent test of a state.
ghost use Rattle.recovery.specs.LatentErrors.{LatentResets, LatentTests};

use crate::{Latent, State, Stepped};
use octets::Refusal;

impl State {
    // Base = figure, latent-resets +1.
    #[tactic(auto, unfolding(crate::specs::LatentErrors::latent_reset_of, crate::specs::LatentErrors::rebased))]
    pub fn latent_reset(mut self) -> Stepped<()>
        ensures { LatentResets self result }
    {
        if !self.is_sound() {
            return Stepped {
                answer: Err(Refusal::Unsound),
                state: self,
            };
        }
        self.base = counters::figure(self.counters, self.setup.paths);
        self.counters = counters::count_latent_reset(self.counters);
        Stepped {
            answer: Ok(()),
            state: self,
        }
    }

    // Error exactly if base and figure are further apart than the difference.
    #[tactic(auto, unfolding(crate::specs::LatentErrors::latent_test_of, crate::specs::LatentErrors::latent_error))]
    pub fn latent_test(self) -> Result<Latent, Refusal>
        ensures { LatentTests self result }
    {
        if !self.is_sound() {
            return Err(Refusal::Unsound);
        }
        let error = counters::latent_error(
            self.base,
            self.counters,
            self.setup.paths,
            self.setup.difference,
        );
        Ok(if error { Latent::Error } else { Latent::Agrees })
    }
}
