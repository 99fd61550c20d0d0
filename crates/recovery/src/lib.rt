// Recovery of one stream (document 01, "Numbering and recovery"): the recovery state with both rules, its timer and counters, and the
// latent error test. "each step takes the state and hands the next one back": a state goes in by `self` and the next one comes back. Each
// call takes any value at all and answers or refuses; a refused step hands the state back as it was.
#![tactic(auto)]

mod latent_errors;
mod packets;
mod resets;
mod soundness;
mod storage;
mod timer;

use counters::Counters;
use marks::Marks;
use octets::Refusal;
use rules::First;
use setup::Setup;

// Ticks left, which this room alone can make: they begin as the full ticks of a setup and go down one by one, and those of a stored state
// come back with it (`State::stored`).
#[derive(Clone, Copy)]
pub struct Left(u64);

#[derive(Clone, Copy)]
pub struct State {
    pub setup: Setup,
    pub newest: u16,
    // mark 0 is the newest
    pub marks: Marks,
    // where the first packet's place stands among them
    pub first: First,
    pub take_any: bool,
    pub left: Left,
    pub counters: Counters,
    // the latent base, modulo 2^64
    pub base: u64,
}

#[derive(Clone, Copy)]
pub enum Packet {
    Numbered(u16),
    Tagless,
}

#[derive(Clone, Copy)]
pub enum Verdict {
    Pass,
    Discard,
}

// A tick that timed out is a reset.
#[derive(Clone, Copy)]
pub enum Ticked {
    Tick,
    Reset,
}

#[derive(Clone, Copy)]
pub enum Latent {
    Agrees,
    Error,
}

// What a step answers, and the next state.
#[derive(Clone, Copy)]
pub struct Stepped<A> {
    pub answer: Result<A, Refusal>,
    pub state: State,
}
