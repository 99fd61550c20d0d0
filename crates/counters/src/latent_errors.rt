// The latent figure and the test of it, modulo 2^64, and one latent reset more.
ghost use Rattle.std.specs.Prelude.{◌≡◌};
ghost use Rattle.counters.specs.LatentErrors.{absolute, GivesFigure, TellsError, CountsLatentReset};

use crate::Counters;

// Of a number modulo 2^64 that is negative from 2^63 on.
#[tactic(auto, using(std::proofs::lemmas::Bool::Decides::nat_tests), unfolding(crate::specs::LatentErrors::absolute))]
fn absolute_of(n: u64) -> u64
    ensures { result ≡ absolute n }
{
    if n < 9223372036854775808 {
        n
    } else {
        n.wrapping_neg()
    }
}

// passed x (paths - 1) - discarded. No setup in range has no path; without one there is no other either.
pub fn figure(k: Counters, paths: u8) -> u64
    ensures { GivesFigure k paths result }
{
    let others = paths.saturating_sub(1) as u64;
    k.passed.wrapping_mul(others).wrapping_sub(k.discarded)
}

// Error exactly if base and figure are further apart than the difference.
#[tactic(auto, unfolding(crate::specs::LatentErrors::exceeds, crate::specs::LatentErrors::less))]
pub fn latent_error(base: u64, k: Counters, paths: u8, difference: u32) -> bool
    ensures { TellsError base k paths difference result }
{
    absolute_of(base.wrapping_sub(figure(k, paths))) > difference as u64
}

#[tactic(auto, unfolding(crate::specs::Counting::plus, crate::specs::LatentErrors::latent_counted))]
pub fn count_latent_reset(mut k: Counters) -> Counters
    ensures { CountsLatentReset k result }
{
    k.latent_resets = k.latent_resets.wrapping_add(1);
    k
}
