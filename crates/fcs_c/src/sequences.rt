// The frame check sequence (CR 6 of document 02) for C: a frame without its check as its length.
ghost use Rattle.crc.specs.Division.{Sums};
ghost use Rattle.fcs_c.specs.Sequences.{ChecksTo, PartOctets, AppendsTo};

// The CRC-32 of any octets.
#[unsafe(no_mangle)]
pub extern "C" fn ahz_crc32(octets: &[u8]) -> u32
    ensures { Sums octets.now result }
{
    crc::of(octets)
}

// 0 where a frame has its check behind it, or the refusal.
#[tactic(auto, using(words::proofs::FromRoom::code_told))]
#[unsafe(no_mangle)]
pub extern "C" fn ahz_check_fcs(frame: &[u8]) -> u8
    ensures { ChecksTo frame.now result }
{
    words::code(fcs::check(frame))
}

// How many octets the frame has without its check: the first ones. 0 for a frame that `ahz_check_fcs` refuses.
#[unsafe(no_mangle)]
pub extern "C" fn ahz_without_fcs(frame: &[u8]) -> usize
    ensures { PartOctets frame.now result }
{
    let part = fcs::without(frame);
    part.len()
}

// The frame with its check, written to `out`, and its length.
#[tactic(auto, using(words::proofs::FromRoom::written_told))]
#[unsafe(no_mangle)]
pub extern "C" fn ahz_append_fcs(frame: &[u8], out: &mut [u8], length: &mut usize) -> u8
    ensures { AppendsTo frame.now out.old length.old result out.new length.new }
{
    let written = fcs::append(frame, out);
    words::told(written, length)
}
