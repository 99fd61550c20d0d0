// The check of a frame.
ghost use Rattle.fcs.specs.Sequence.{Checks};

use octets::Refusal;

// Whether the last four octets are the check of those before them, low octet first.
#[tactic(auto, using(crate::proofs::Decided::of_check), unfolding(crate::specs::Sequence::low_first))]
pub fn check(frame: &[u8]) -> Result<(), Refusal>
    ensures { Checks frame.now result }
{
    let all = frame.len();
    if all < 18 {
        return Err(Refusal::FrameShort);
    }
    if 1526 < all {
        return Err(Refusal::FrameLong);
    }
    let (before, sequence) = frame.split_at(all - 4);
    if sequence == &crc::of(before).to_le_bytes()[..] {
        Ok(())
    } else {
        Err(Refusal::WrongCheck)
    }
}
