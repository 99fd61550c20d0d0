// The door of `volts` for C. What an answer means stands in `words`, where it is said for every door; from 100 on the names are those of
// `of_volts` (specs/Readings).
#![tactic(auto)]

pub mod readings;
