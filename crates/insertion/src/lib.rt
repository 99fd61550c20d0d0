// A tag or a trailer put in (document 01, "Reading a frame"; document 02, CR 5): the result goes to a second buffer.
#![tactic(auto)]

ghost use Rattle.std.specs.Prelude.{◌≡◌, ◌+◌, ◌≤◌, ◌&&◌, length, is_some};
ghost use Rattle.octets.specs.Copy.{put_in};
ghost use Rattle.encoding.specs.Encodings.{in_front};
ghost use Rattle.tag.specs.Insertion.{Inserts, inserted_at};

use encoding::Encoding;
use frame::Tag;
use octets::Refusal;

// Writes the frame with that number and path or LAN id to `out`, in the encoding of its stream, and answers the result's length.
#[tactic(auto, using(crate::proofs::Decided::of_insert))]
pub fn insert(
    frame: &[u8],
    encoding: Encoding,
    number: u16,
    path: u8,
    out: &mut [u8],
) -> Result<usize, Refusal>
    ensures { Inserts encoding frame.now number path out.old result out.new }
{
    let h = frame::read(frame)?;
    if 15 < path {
        return Err(Refusal::PathId);
    }
    if in_the_way(encoding, h.tag) {
        return Err(Refusal::TagThere);
    }
    let n = frame.len() + 6;
    if 1522 < n {
        return Err(Refusal::ResultLong);
    }
    if out.len() < n {
        return Err(Refusal::OutputShort);
    }
    let at = encoding::place(encoding, h.payload - 2, frame.len());
    let six = encoding::octets_of(encoding, number, path, (n - h.payload) as u16);
    write_with(frame, at, six, out);
    Ok(n)
}

// Whether a tag stands where one is to be put; a trailer always has its place.
fn in_the_way(encoding: Encoding, tag: Option<Tag>) -> bool
    ensures { result ≡ (in_front encoding && is_some tag) }
{
    encoding::in_front(encoding) && tag.is_some()
}

// The octets before a place, six others, and those behind it.
#[tactic(auto, using(tag::proofs::Splice::put_with))]
fn write_with(frame: &[u8], at: usize, six: [u8; 6], out: &mut [u8])
    requires { (at ≤ length frame.now) × (length frame.now + 6 ≤ length out.old) }
    ensures { out.new ≡ put_in (inserted_at frame.now at six) out.old }
{
    let behind = at + 6;
    octets::put(&frame[..at], out);
    octets::put(&six, &mut out[at..]);
    octets::put(&frame[at..], &mut out[behind..]);
}
