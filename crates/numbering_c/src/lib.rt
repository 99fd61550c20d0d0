// The door of `numbering` for C. A generator is its number, lent as such, and no call refuses.
#![tactic(auto)]

pub mod generators;
