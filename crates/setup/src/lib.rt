// The setup of a recovery state (document 01, "Numbering and recovery"): its values, its check, and its timeout in ticks.
#![tactic(auto)]

mod conversion;
mod range;
mod values;

pub use range::check_numbers;

// "two kinds of number that can't be mixed": `Milliseconds::ticks` is the one way from the first to the second. The number of milliseconds
// is public, since any setup at all may be handed in. That of ticks is this room's own, so that no other room has ticks but by the
// conversion.
#[derive(Clone, Copy)]
pub struct Milliseconds(pub u32);

#[derive(Drop)]
pub struct Ticks(u64);

// Any values may stand in the fields; `check` says which are in range.
#[derive(Clone, Copy)]
pub struct Setup {
    // 0 vector, 1 match. Rule, taken and use are numbers and no enums: any that a caller hands in stand here, and `check` refuses them.
    pub rule: u8,
    // whether packets without a number are taken: 0 or 1
    pub taken: u8,
    // the history length H
    pub history: u16,
    pub timeout: Milliseconds,
    // ticks per second
    pub rate: u16,
    pub paths: u8,
    // what the state is used for: 0 sequence, 1 individual. (`use` is a word of the language.) It is the paper's third number, and stands
    // here so that a setup is sixteen octets without a gap.
    pub usage: u8,
    // the latent difference
    pub difference: u32,
}
