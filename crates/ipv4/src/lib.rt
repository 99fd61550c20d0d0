// An IPv4 header at the start of lent octets (RFC 791; the DSCP's bits by RFC 2474): what a stream lookup asks of it.
//
// Whatever octets come in, the call answers. It knows nothing of frames and tables. The checksum and the total length are not read.
#![tactic(auto)]

mod reader;

pub use reader::read;

// An address is its four octets as one big-endian number.
#[derive(Clone, Copy)]
pub struct Header {
    pub source: u32,
    pub destination: u32,
    pub dscp: u8,
    pub protocol: u8,
    // A fragment behind the first one: its octets behind the header are not where ports stand.
    pub later: bool,
    // Where what the header carries starts, behind its options. Ports stand there, first the source's.
    pub ports: usize,
}

// Why there is no header to read.
#[derive(Clone, Copy, Debug, PartialEq, Eq)]
pub enum Unread {
    Bad,
    Cut,
}
