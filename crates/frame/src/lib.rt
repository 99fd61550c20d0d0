// A lent frame: read in one pass, and its payload handed back as a part of it.
//
// Whatever octets come in, each call answers or refuses, as document 01 has it.
#![tactic(auto)]

mod part;
mod reader;

pub use part::payload;
pub use reader::read;

// What a frame says before its payload, whatever the encoding of its stream. An address is its six octets as one big-endian number.
#[derive(Clone, Copy, Debug, PartialEq, Eq)]
pub struct Header {
    pub destination: u64,
    pub source: u64,
    // The VLAN id of its C-TAG.
    pub vlan: Option<u16>,
    pub tag: Option<Tag>,
    // The last type.
    pub kind: u16,
    // Where the payload starts.
    pub payload: usize,
}

// A sequence tag: the type that announces it, F1C1 or 892F, and the number in it.
#[derive(Clone, Copy, Debug, PartialEq, Eq)]
pub struct Tag {
    pub kind: u16,
    pub number: u16,
}
