// The CRC-32 of IEEE 802.3 over any octets (CR 6 of document 02), by octets from a constant table, and by several at once from a second
// one, the slices, which follows from it.
#![tactic(auto)]

mod division;
mod slices;
mod table;

pub use division::of;
