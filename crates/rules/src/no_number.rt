// A packet without a number, under both rules.
ghost use Rattle.rules.specs.NoNumber.{HearsNoNumber};

use crate::Effect;
use crate::effects::{accept, discard};
use marks::Marks;

// Passed if taken, else discarded.
#[tactic(auto, using(std::proofs::lemmas::Bool::Decides::nat_tests), unfolding(crate::specs::NoNumber::unnumbered))]
pub fn hear_no_number(taken: u8, newest: u16, marks: Marks) -> Effect
    ensures { HearsNoNumber taken newest marks result }
{
    if taken == 1 {
        return accept(newest, marks, 0);
    }
    discard(newest, marks, 0)
}
