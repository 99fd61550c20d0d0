// Charge cards: what stands in a payload, card by card.
#![tactic(auto)]

mod payload;

pub use payload::{next, part, rest};

// What stands next in a payload.
#[derive(Clone, Copy, Debug, PartialEq, Eq)]
pub enum Card {
    // Blocks asked.
    FlushOrder(u32),
    RawCode(u16),
    Millivolts(u16),
    End,
}
