// The door of `frame` and `encoding` for C. What an answer means stands in `words`, where it is said for every door.
#![tactic(auto)]

pub mod frames;
