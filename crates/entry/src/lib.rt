// One entry of a stream table: what its octets say, whether it matches a frame, and whether it clashes with another.
//
// Any octets, numbers and headers may be handed in, and each call has an answer; the walk over a table stands in the room above.
#![tactic(auto)]

mod clashing;
mod contents;
mod ip;
mod matching;

pub use clashing::clash;
pub use contents::{body_length, ip_out_of_range, out_of_range, unfit};
pub use ip::{ip_allows, packet_of};
pub use matching::{address_of, allows};
