// A frame written with its check to a second buffer.
ghost use Rattle.fcs.specs.Writer.{Appends};

use octets::Refusal;

// Writes the frame and its check to `out`, and answers the result's length.
#[tactic(auto, using(crate::proofs::Decided::of_append), unfolding(crate::specs::Sequence::low_first))]
pub fn append(frame: &[u8], out: &mut [u8]) -> Result<usize, Refusal>
    ensures { Appends frame.now out.old result out.new }
{
    let end = frame.len();
    if end < 14 {
        return Err(Refusal::FrameShort);
    }
    if 1522 < end {
        return Err(Refusal::FrameLong);
    }
    let all = end + 4;
    if out.len() < all {
        return Err(Refusal::OutputShort);
    }
    octets::put(frame, out);
    octets::put(&crc::of(frame).to_le_bytes(), &mut out[end..]);
    Ok(all)
}
