// The nine counters of a recovery state, and the latent figure that two of them give (document 01, "Numbering and recovery"). A state has
// them in the room above, which says when they count.
//
// Each call takes any counters and any numbers at all, and always has an answer.
#![tactic(auto)]

mod counting;
mod latent_errors;

// They wrap.
#[derive(Clone, Copy, Default)]
pub struct Counters {
    pub passed: u64,
    pub discarded: u64,
    pub order: u64,
    pub rogue: u64,
    pub lost: u64,
    pub tagless: u64,
    pub resets: u64,
    pub latent_resets: u64,
    pub before_first: u64,
}

pub use counting::{count, count_reset, none};
pub use latent_errors::{count_latent_reset, figure, latent_error};
