// What a text may say wrong.
use thiserror::Error;

#[derive(Clone, Copy, Debug, Error)]
pub enum Mistake {
    #[error("no such event")]
    NoEvent,
    #[error("not a number that fits here")]
    NoNumber,
    #[error("a word is missing")]
    TooFew,
    #[error("a word too many")]
    TooMany,
    #[error("no room for more octets")]
    NoRoom,
}

// A mistake, and the line that has it, from 1.
#[derive(Clone, Copy, Debug, Error)]
#[error("line {line}: {mistake}")]
pub struct Wrong {
    pub line: usize,
    pub mistake: Mistake,
}
