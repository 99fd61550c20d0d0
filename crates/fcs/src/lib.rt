// The frame check sequence (CR 6 of document 02): a frame with its check behind it is checked, handed back without it, or made.
//
// Whatever octets come in, each call answers or refuses by the papers' number, and a refusal leaves the lent output as it was. Tags are
// not read.
#![tactic(auto)]

mod part;
mod sequence;
mod writer;

pub use part::without;
pub use sequence::check;
pub use writer::append;
