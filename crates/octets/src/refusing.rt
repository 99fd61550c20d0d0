// The number of a refusal.
ghost use Rattle.octets.specs.Refusals.{Numbers};

use crate::Refusal;

impl Refusal {
    // As the papers give it.
    #[tactic(auto, unfolding(crate::specs::Refusals::number))]
    pub fn number(self) -> u8
        ensures { Numbers self result }
    {
        self as u8
    }
}
