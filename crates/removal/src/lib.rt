// A tag or a trailer taken off (document 01, "Reading a frame"; document 02, CR 5): the result goes to a second buffer.
#![tactic(auto)]

ghost use Rattle.std.specs.Prelude.{◌≡◌, ◌+◌, ◌≤◌, length};
ghost use Rattle.octets.specs.Copy.{put_in};
ghost use Rattle.tag.specs.Removal.{Removes, removed_at};

use encoding::Encoding;
use octets::Refusal;

// Writes the frame without the six octets of its number to `out`, in the encoding of its stream, and answers the result's length.
#[tactic(auto, using(crate::proofs::Decided::of_remove))]
pub fn remove(frame: &[u8], encoding: Encoding, out: &mut [u8]) -> Result<usize, Refusal>
    ensures { Removes encoding frame.now out.old result out.new }
{
    let packet = encoding::read(frame, encoding)?;
    if packet.sequence.is_none() {
        return Err(Refusal::NoTag);
    }
    let left = frame.len() - 6;
    if out.len() < left {
        return Err(Refusal::OutputShort);
    }
    let at = encoding::place(encoding, packet.header.payload - 8, left);
    write_without(frame, at, out);
    Ok(left)
}

// The octets before a place, and those behind the six that stand there.
#[tactic(auto, using(tag::proofs::Splice::put_without))]
fn write_without(frame: &[u8], at: usize, out: &mut [u8])
    requires { (at + 6 ≤ length frame.now) × (length frame.now ≤ length out.old + 6) }
    ensures { out.new ≡ put_in (removed_at frame.now at) out.old }
{
    let behind = at + 6;
    octets::put(&frame[..at], out);
    octets::put(&frame[behind..], &mut out[at..]);
}
