// The door of `setup` for C: its numbers pass with the widths that the tape gives them. What an answer means stands in `words`, where it is
// said for every door.
#![tactic(auto)]

pub mod setups;
