// "The payload is handed back as a part of the lent frame, not copied" (document 01).
ghost use Rattle.frame.specs.Part.{HandsBack};

use crate::reader::read;

// What follows the last type of a frame that `read` accepts; an empty part of a frame that it refuses.
#[tactic(auto, using(crate::proofs::Accepted::starts_within))]
pub fn payload(frame: &[u8]) -> &[u8]
    ensures { HandsBack frame.now frame.entry.ref_ptr result.now result.ref_ptr }
{
    match read(frame) {
        Ok(h) => &frame[h.payload..],
        Err(_) => &frame[..0],
    }
}
