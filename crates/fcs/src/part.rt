// A frame without its check, as a part of the lent octets.
ghost use Rattle.fcs.specs.Part.{HandsBack};

use crate::sequence::check;

// The octets before the check of a frame that `check` accepts; an empty part of any other.
#[tactic(auto, using(crate::proofs::Decided::of_without))]
pub fn without(frame: &[u8]) -> &[u8]
    ensures { HandsBack frame.now frame.entry.ref_ptr result.now result.ref_ptr }
{
    match check(frame) {
        Ok(()) => &frame[..frame.len() - 4],
        Err(_) => &frame[..0],
    }
}
