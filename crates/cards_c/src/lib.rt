// The door of `cards` for C. What an answer means stands in `words`, where it is said for every door; from 100 on the names are those of
// `of_card` (specs/Charge).
#![tactic(auto)]

pub mod charge;
