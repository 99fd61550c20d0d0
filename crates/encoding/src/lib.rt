// The number of a frame in the encoding of its stream (document 02, CR 5): an R-TAG, an HSR tag or a PRP trailer.
//
// The caller chooses the encoding for each stream. Whatever octets come in, a reading answers or refuses, as document 01 has it.
#![tactic(auto)]

mod reader;
mod six;

pub use reader::read;
pub use six::{in_front, mark, octets_of, place};

#[derive(Clone, Copy, Debug, PartialEq, Eq)]
pub enum Encoding {
    RTag,
    Hsr,
    Prp,
}

// The number that a frame carries in an encoding.
#[derive(Clone, Copy, Debug, PartialEq, Eq)]
pub struct Sequence {
    pub number: u16,
    // The path or LAN id; 0 under the R-TAG.
    pub path: u8,
}

// What a frame reads as in an encoding.
#[derive(Clone, Copy, Debug, PartialEq, Eq)]
pub struct Packet {
    pub header: frame::Header,
    pub sequence: Option<Sequence>,
}
