// The door of `crc` and `fcs` for C. What an answer means stands in `words`, where it is said for every door.
#![tactic(auto)]

pub mod sequences;
