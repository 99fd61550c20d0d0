// A frame read in the encoding of its stream: what it says whatever the stream, and the number that is the stream's own.
ghost use Rattle.std.specs.Prelude.{◌≡◌, ◌≤◌, true, false, length, Ok};
ghost use Rattle.frame.specs.Reader.{reading};
ghost use Rattle.encoding.specs.Encodings.{in_front, id_in, trails, sequence};
ghost use Rattle.encoding.specs.Reader.{ReadsIn};

use crate::six::{in_front, mark};
use crate::{Encoding, Packet, Sequence};
use frame::Header;
use octets::Refusal;

// Everything about a frame, with the number that it carries in the encoding of its stream.
#[tactic(auto, unfolding(crate::specs::Reader::reading_in))]
pub fn read(frame: &[u8], encoding: Encoding) -> Result<Packet, Refusal>
    ensures { ReadsIn encoding frame.now result }
{
    let header = frame::read(frame)?;
    let sequence = if in_front(encoding) {
        in_tag(frame, encoding, header)
    } else {
        in_trailer(frame, encoding, header)
    };
    Ok(Packet { header, sequence })
}

// What a frame that was read carries in its sequence tag.
#[tactic(auto, using(crate::proofs::Carried::of_tag))]
fn in_tag(frame: &[u8], encoding: Encoding, h: Header) -> Option<Sequence>
    requires { (Ok h ≡ reading frame.now) × (in_front encoding ≡ true) }
    ensures { result ≡ sequence encoding frame.now }
{
    let tag = h.tag?;
    if tag.kind != mark(encoding) {
        return None;
    }
    let word = octets::word16(frame, h.payload - 6);
    Some(Sequence {
        number: tag.number,
        path: id_in(encoding, word),
    })
}

// What it carries at its end.
#[tactic(auto, using(crate::proofs::Carried::of_trailer))]
fn in_trailer(frame: &[u8], encoding: Encoding, h: Header) -> Option<Sequence>
    requires { (Ok h ≡ reading frame.now) × (in_front encoding ≡ false) }
    ensures { result ≡ sequence encoding frame.now }
{
    if !trails(frame, mark(encoding), frame.len() - h.payload) {
        return None;
    }
    let at = frame.len() - 6;
    Some(Sequence {
        number: octets::word16(frame, at),
        path: id_in(encoding, octets::word16(frame, at + 2)),
    })
}

// Whether the last six octets of a payload of so many are a trailer with that suffix.
#[tactic(auto, unfolding(crate::specs::Encodings::trails))]
fn trails(frame: &[u8], suffix: u16, payload: usize) -> bool
    requires { payload ≤ length frame.now }
    ensures { result ≡ trails frame.now suffix payload }
{
    if payload < 6 {
        return false;
    }
    if octets::word16(frame, frame.len() - 2) != suffix {
        return false;
    }
    (octets::word16(frame, frame.len() - 4) % 4096) as usize == payload
}

// The path or LAN id, from the word that it shares with the size.
#[tactic(auto, unfolding(crate::specs::Encodings::id_in))]
fn id_in(encoding: Encoding, word: u16) -> u8
    ensures { result ≡ id_in encoding word }
{
    match encoding {
        Encoding::RTag => 0,
        Encoding::Hsr | Encoding::Prp => (word / 4096) as u8,
    }
}
