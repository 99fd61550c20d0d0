// The door of `streams` for C. What an answer means stands in `words`, where it is said for every door; from 100 on the names are those of
// `of_found` (specs/Tables).
#![tactic(auto)]

pub mod tables;
