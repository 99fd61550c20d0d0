// A packet with a number, under both rules.
ghost use Rattle.rules.specs.ByRule.{HearsNumbered};

use crate::matching::hear_match;
use crate::take_any::hear_first;
use crate::vector::hear_vector;
use crate::{Effect, Window};

impl Window {
    // Take-any under both rules; else by the rule, 0 for vector.
    #[tactic(auto, using(std::proofs::lemmas::Bool::Decides::nat_tests), unfolding(crate::specs::ByRule::by_rule))]
    pub fn hear_numbered(self, number: u16) -> Effect
        ensures { HearsNumbered self number result }
    {
        if self.take_any {
            return hear_first(self.rule == 0, number);
        }
        if self.rule == 0 {
            return hear_vector(self.history as u32, self.newest, self.marks, number);
        }
        hear_match(self.newest, self.marks, number)
    }
}
