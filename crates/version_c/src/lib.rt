// A door over no room: which version of the calls for C this is.
#![tactic(auto)]

pub mod versions;
