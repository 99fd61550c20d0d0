// No counts yet, and one packet or one reset more.
ghost use Rattle.counters.specs.Counting.{StartsAtZero, Counts, CountsReset};

use crate::Counters;
use rules::Effect;

pub fn none() -> Counters
    ensures { StartsAtZero result }
{
    Counters::default()
}

// Every count of a packet in one place: passed and discarded add 1 to their counters, a rogue's discard too, and of the places lost the
// holes are those below the first packet's.
#[tactic(auto, using(octets::proofs::Bools::one_if, octets::proofs::Bools::one_unless), unfolding(crate::specs::Counting::plus, crate::specs::Counting::counted))]
pub fn count(mut k: Counters, tagless: u64, holes: u64, e: Effect) -> Counters
    ensures { Counts k tagless holes e result }
{
    k.lost = k.lost.wrapping_add(e.lost);
    k.discarded = k.discarded.wrapping_add(!e.passes as u64);
    k.passed = k.passed.wrapping_add(e.passes as u64);
    k.order = k.order.wrapping_add(e.order);
    k.rogue = k.rogue.wrapping_add(e.rogue);
    k.before_first = k.before_first.wrapping_add(holes);
    k.tagless = k.tagless.wrapping_add(tagless);
    k
}

#[tactic(auto, unfolding(crate::specs::Counting::plus, crate::specs::Counting::reset_counted))]
pub fn count_reset(mut k: Counters) -> Counters
    ensures { CountsReset k result }
{
    k.resets = k.resets.wrapping_add(1);
    k
}
