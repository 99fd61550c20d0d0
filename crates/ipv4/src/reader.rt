// "Bad" and "cut" (document 02, CR 1), and what a whole header says.
ghost use Rattle.std.specs.Prelude.{◌≡◌};
ghost use Rattle.ipv4.specs.Reader.{dscp, later, Reads};

use crate::{Header, Unread};

// In octets: the shortest header, of five words.
const SHORTEST: usize = 20;

// The header that octets begin with. A bad one is bad before it is cut.
#[tactic(auto, using(crate::proofs::Verdicts::other_version, crate::proofs::Verdicts::under_five_words, crate::proofs::Verdicts::shorter, crate::proofs::Verdicts::whole), unfolding(crate::specs::Reader::header, crate::specs::Reader::header_length, crate::specs::Reader::words))]
pub fn read(packet: &[u8]) -> Result<Header, Unread>
    ensures { Reads packet.now result }
{
    let first = octets::octet(packet, 0);
    let length = (first % 16) as usize * 4;
    if first / 16 != 4 {
        return Err(Unread::Bad);
    }
    if length < SHORTEST {
        return Err(Unread::Bad);
    }
    if packet.len() < SHORTEST {
        return Err(Unread::Cut); // whatever its own length: so the compiler knows that all below is there
    }
    if packet.len() < length {
        return Err(Unread::Cut);
    }
    Ok(Header {
        source: octets::word32(packet, 12),
        destination: octets::word32(packet, 16),
        dscp: dscp_of(packet),
        protocol: octets::octet(packet, 9),
        later: is_later(packet),
        ports: length,
    })
}

// The high six bits of the second octet.
#[tactic(auto, unfolding(crate::specs::Reader::dscp))]
fn dscp_of(packet: &[u8]) -> u8
    ensures { result ≡ dscp packet.now }
{
    octets::octet(packet, 1) / 4
}

// Whether the offset, the low 13 bits beside the flags, is not 0.
#[tactic(auto, unfolding(crate::specs::Reader::later))]
fn is_later(packet: &[u8]) -> bool
    ensures { result ≡ later packet.now }
{
    octets::word16(packet, 6) % 8192 != 0
}
