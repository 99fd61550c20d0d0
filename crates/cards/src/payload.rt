// The cards of a payload: what stands next, that card as a part of the payload, and the rest after it.
ghost use Rattle.std.specs.Prelude.{◌≡◌};
ghost use Rattle.cards.specs.Payload.{Next, HandsCard, HandsRest, next_card, width};

use crate::Card;
use octets::Refusal;

// What stands next. An empty payload reads as 00, an end.
#[tactic(auto, using(crate::proofs::Kind::of_next))]
pub fn next(payload: &[u8]) -> Result<Card, Refusal>
    ensures { Next payload.now result }
{
    match octets::octet(payload, 0) {
        0x00 => Ok(Card::End),
        0x10 if 5 <= payload.len() => Ok(Card::FlushOrder(octets::word32(payload, 1))),
        0x11 if 3 <= payload.len() => Ok(Card::RawCode(octets::word16(payload, 1))),
        0x12 if 3 <= payload.len() => Ok(Card::Millivolts(octets::word16(payload, 1))),
        0x10 | 0x11 | 0x12 => Err(Refusal::CardCut),
        _ => Err(Refusal::CardKind),
    }
}

// How many octets the next card has, its kind with them; none for an end, and where `next` refuses. By the kind itself: by what `next`
// answers a raw code would take a fifth longer (docs/MEASURES.md, "Where code lies").
#[tactic(auto, using(crate::proofs::Kind::of_next))]
fn width_of(payload: &[u8]) -> usize
    ensures { result ≡ width (next_card payload.now) }
{
    match octets::octet(payload, 0) {
        0x10 => if 5 <= payload.len() { 5 } else { 0 },
        0x11 | 0x12 => if 3 <= payload.len() { 3 } else { 0 },
        _ => 0,
    }
}

// The next card, a part of the payload; empty on a refusal or end.
#[tactic(auto, using(crate::proofs::Width::within))]
pub fn part(payload: &[u8]) -> &[u8]
    ensures { HandsCard payload.now payload.entry.ref_ptr result.now result.ref_ptr }
{
    let n = width_of(payload);
    &payload[..n]
}

// What comes after the next card, a part of the payload; empty on a refusal or end.
#[tactic(auto, using(crate::proofs::Width::within))]
pub fn rest(payload: &[u8]) -> &[u8]
    ensures { HandsRest payload.now payload.entry.ref_ptr result.now result.ref_ptr }
{
    let n = width_of(payload);
    if 0 < n { &payload[n..] } else { &payload[..0] }
}
