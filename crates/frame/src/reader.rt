// "Reading a frame" (document 01), and 892F as a tag for every stream (document 02, CR 5).
ghost use Rattle.std.specs.Prelude.{◌≡◌, true, None};
ghost use Rattle.octets.specs.Number.{be16};
ghost use Rattle.frame.specs.Layout.{announces};
ghost use Rattle.frame.specs.Reader.{header_of, Before, Reads};

use crate::{Header, Tag};
use octets::Refusal;

const C_TAG: u16 = 0x8100;

const R_TAG: u16 = 0xF1C1;

const HSR_TAG: u16 = 0x892F;

// Everything about a frame, or the first refusal: the lengths, then from left to right.
#[tactic(auto, using(crate::proofs::Verdicts::of_read))]
pub fn read(frame: &[u8]) -> Result<Header, Refusal>
    ensures { Reads frame.now result }
{
    let n = frame.len();
    if n < 14 {
        return Err(Refusal::FrameShort);
    }
    if 1522 < n {
        return Err(Refusal::FrameLong);
    }
    if octets::word16(frame, 12) != C_TAG {
        return from_tag_place(frame, 12, None);
    }
    if n < 18 {
        return Err(Refusal::TagCut);
    }
    let vlan = octets::word16(frame, 14) % 4096;
    if vlan == 4095 {
        return Err(Refusal::ReservedVlan);
    }
    if octets::word16(frame, 16) == C_TAG {
        return Err(Refusal::TagTwice); // 8100 after a C-TAG
    }
    from_tag_place(frame, 16, Some(vlan))
}

// The frame from the sequence tag's place on, where all before it is read and good. Each type goes its own way, so that a caller who asks
// for one finds no test of the other on it.
#[tactic(auto, using(crate::proofs::Verdicts::of_from_tag_place))]
fn from_tag_place(frame: &[u8], at: usize, vlan: Option<u16>) -> Result<Header, Refusal>
    requires { Before frame.now at vlan }
    ensures { Reads frame.now result }
{
    let first = octets::word16(frame, at);
    if first == R_TAG {
        return from_tag(frame, at, vlan, R_TAG);
    }
    if first == HSR_TAG {
        return from_tag(frame, at, vlan, HSR_TAG);
    }
    Ok(header(frame, vlan, first, at + 2))
}

// The frame from a sequence tag on that this type announces.
#[tactic(auto, using(crate::proofs::Verdicts::of_from_tag))]
fn from_tag(frame: &[u8], at: usize, vlan: Option<u16>, announced: u16) -> Result<Header, Refusal>
    requires { Before frame.now at vlan × (be16 frame.now at ≡ announced) × (announces announced ≡ true) }
    ensures { Reads frame.now result }
{
    if frame.len() < at + 8 {
        return Err(Refusal::TagCut);
    }
    let kind = octets::word16(frame, at + 6);
    if kind == C_TAG {
        return Err(Refusal::TagTwice); // 8100 after a sequence tag
    }
    if kind == R_TAG {
        return Err(Refusal::TagTwice); // F1C1 after one
    }
    if kind == HSR_TAG {
        return Err(Refusal::TagTwice); // 892F after one
    }
    let tag = Tag {
        kind: announced,
        number: octets::word16(frame, at + 4),
    };
    Ok(Header {
        tag: Some(tag),
        ..header(frame, vlan, kind, at + 8)
    })
}

// The header of a frame without a sequence tag. One with a tag sets it in the header: handed on, its two words would be one to the compiler,
// and its type be tested again by who asks for one.
#[tactic(auto, unfolding(crate::specs::Layout::destination, crate::specs::Layout::source))]
fn header(frame: &[u8], vlan: Option<u16>, kind: u16, payload: usize) -> Header
    ensures { result ≡ header_of frame.now vlan None kind payload }
{
    Header {
        destination: octets::word48(frame, 0),
        source: octets::word48(frame, 6),
        vlan,
        tag: None,
        kind,
        payload,
    }
}
