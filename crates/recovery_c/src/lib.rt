// The door of `recovery` for C: a state is lent words (`states`). What an answer means stands in `words`, where
// it is said for every door; from 100 on the names are those of `number_of` of `answers`.
#![tactic(auto)]

mod long;
pub mod recoveries;
