// The CRC-32 of octets.
ghost use Rattle.crc.specs.Division.{Sums};

use crate::slices::by_words;
use crate::table::by_octets;

// The register begins with all ones, which complements the first 32 bits. Octets go through it several at a time, and the last three at
// most one by one.
#[tactic(auto, using(crate::proofs::Register::in_two_parts))]
pub fn of(octets: &[u8]) -> u32
    ensures { Sums octets.now result }
{
    let whole = octets.len() / 4 * 4;
    let register = by_words(0xFFFFFFFF, &octets[..whole]);
    !by_octets(register, &octets[whole..])
}
