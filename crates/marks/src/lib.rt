// The marks of the vector rule's window (document 01, "Numbering and recovery"): "H marks (mark 0 is the newest)".
//
// Above this room marks are known by these calls, by `mark` of specs/Window and by the laws, so that how they are kept can change; only the
// words of a state and computed examples look inside. Any marks at all may be handed in, with any mark asked for and any history length:
// each call has an answer.
#![tactic(auto)]

mod number;
mod window;

pub use window::{clear_from, is_set, none, set, slide};

// Word i has the marks 64 i to 64 i + 63, the lowest at bit 0. The words are public, since any state at all may be handed in. They are
// eight fields and no array: a word is found by masks, with no loop, no index and no branch (docs/MEASURES.md).
#[derive(Clone, Copy)]
pub struct Marks {
    pub w0: u64,
    pub w1: u64,
    pub w2: u64,
    pub w3: u64,
    pub w4: u64,
    pub w5: u64,
    pub w6: u64,
    pub w7: u64,
}

// The marks after some moves, and how many of the marks that left were clear.
#[derive(Drop)]
pub struct Slid {
    pub marks: Marks,
    pub lost: u64,
}
