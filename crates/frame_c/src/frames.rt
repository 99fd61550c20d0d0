// "Reading a frame" (document 01; document 02, CR 5) for C: the header as a record of words, a payload as its length. The encoding is in
// the name of the call, so that no other can be handed in.
ghost use Rattle.std.specs.Prelude.{◌≡◌, ◌≤◌};
ghost use Rattle.encoding.specs.declared.Encoding.TheVariants.{RTag, Hsr, Prp};
ghost use Rattle.frame_c.specs.Frames.{header_words, Fills, ReadsTo, PayloadOctets};

use encoding::{Encoding, Packet};
use octets::Refusal;

// The header of a frame of an R-TAG stream, in eight words.
#[unsafe(no_mangle)]
pub extern "C" fn ahz_read(frame: &[u8], header: &mut [u64]) -> u8
    ensures { ReadsTo RTag 8 frame.now header.old result header.new }
{
    read_to(frame, Encoding::RTag, 8, header)
}

// Of an HSR stream, in nine: the path id is the last.
#[unsafe(no_mangle)]
pub extern "C" fn ahz_read_hsr(frame: &[u8], header: &mut [u64]) -> u8
    ensures { ReadsTo Hsr 9 frame.now header.old result header.new }
{
    read_to(frame, Encoding::Hsr, 9, header)
}

// Of a PRP stream, in nine: the LAN id is the last.
#[unsafe(no_mangle)]
pub extern "C" fn ahz_read_prp(frame: &[u8], header: &mut [u64]) -> u8
    ensures { ReadsTo Prp 9 frame.now header.old result header.new }
{
    read_to(frame, Encoding::Prp, 9, header)
}

// The first `n` words of a frame's header.
fn read_to(frame: &[u8], encoding: Encoding, n: usize, header: &mut [u64]) -> u8
    requires { n ≤ 9 }
    ensures { ReadsTo encoding n frame.now header.old result header.new }
{
    words::code(fill(frame, encoding, n, header))
}

// The same with the room's answer.
#[tactic(auto, using(crate::proofs::Told::of_fill))]
fn fill(frame: &[u8], encoding: Encoding, n: usize, header: &mut [u64]) -> Result<(), Refusal>
    requires { n ≤ 9 }
    ensures { Fills encoding n frame.now header.old result header.new }
{
    let packet = encoding::read(frame, encoding)?;
    if octets::put(&words_of(packet)[..n], header) {
        Ok(())
    } else {
        Err(Refusal::OutputShort)
    }
}

// What a frame reads as, in words.
#[tactic(auto, using(crate::proofs::Told::of_words_of), unfolding(crate::specs::Frames::header_words))]
fn words_of(packet: Packet) -> [u64; 9]
    ensures { result ≡ header_words packet.header packet.sequence }
{
    let h = packet.header;
    let (tagged, vlan) = match h.vlan {
        Some(vlan) => (1, vlan as u64),
        None => (0, 0),
    };
    let (numbered, number, path) = match packet.sequence {
        Some(s) => (1, s.number as u64, s.path as u64),
        None => (0, 0, 0),
    };
    [
        h.destination,
        h.source,
        tagged,
        vlan,
        numbered,
        number,
        h.kind as u64,
        h.payload as u64,
        path,
    ]
}

// How many octets the payload has: the last ones of the frame, a trailer among them. 0 for a frame that `ahz_read` refuses.
#[unsafe(no_mangle)]
pub extern "C" fn ahz_payload(frame: &[u8]) -> usize
    ensures { PayloadOctets frame.now result }
{
    let part = frame::payload(frame);
    part.len()
}
