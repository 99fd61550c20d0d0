// The door of `tag` for C, by `insertion` and `removal`. What an answer means stands in `words`, where it is said for every door.
#![tactic(auto)]

pub mod tags;
