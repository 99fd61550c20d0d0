// What one packet does by its rule (document 01, "Numbering and recovery"): to the newest number, the marks and the counts, and to the
// first packet's place (CR 7). A recovery state is made of that in the room above.
//
// Each call takes any numbers and any marks at all, and always has an answer.
#![tactic(auto)]

mod by_rule;
mod difference;
mod effects;
mod first_place;
mod matching;
mod no_number;
mod take_any;
mod vector;

use marks::Marks;

// What a packet with a number finds: its rule, the history length, and of the state all that the rule asks. Any values may stand here.
#[derive(Clone, Copy)]
pub struct Window {
    // the rule: 0 vector, else match; a number, as in a setup, since any may be handed in
    pub rule: u8,
    pub history: u16,
    pub take_any: bool,
    pub newest: u16,
    pub marks: Marks,
}

// The counts are what the packet adds.
#[derive(Clone, Copy)]
pub struct Effect {
    pub passes: bool,
    pub newest: u16,
    pub marks: Marks,
    pub order: u64,
    pub rogue: u64,
    pub lost: u64,
}

// Which of the window's places is the first packet's, counted from the newest, which is the 1st; 0 where it is none of them. The number is
// public, since any state at all may be handed in.
#[derive(Clone, Copy)]
pub struct First(pub u16);

// The first packet's place after a packet, and how many places below it left the window unpassed.
#[derive(Drop)]
pub struct Traced {
    pub first: First,
    pub holes: u64,
}

pub use matching::hear_match;
pub use no_number::hear_no_number;
pub use take_any::hear_first;
pub use vector::hear_vector;
