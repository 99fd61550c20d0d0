// The kinds of an entry, the octets of their bodies, and the ranges of what they hold.
ghost use Rattle.entry.specs.Contents.{HasBody, Ranges, IpRanges, Unfit};

// How many octets follow the kind; 0 for an octet that is no kind. A kind and a choice are no enums: any octet of a lent table may be
// asked, and the walk tests it as it stands there.
#[tactic(auto, unfolding(crate::specs::Contents::body_length))]
pub fn body_length(kind: u8) -> usize
    ensures { HasBody kind result }
{
    match kind {
        1 => 11,
        2 => 11,
        4 => 25,
        _ => 0,
    }
}

// Whether a field of an entry is out of its range.
#[tactic(auto, unfolding(crate::specs::Contents::unfit, crate::specs::Contents::kind, crate::specs::Contents::choice, crate::specs::Contents::vlan, crate::specs::Contents::dscp, crate::specs::Contents::protocol))]
pub fn unfit(entry: &[u8]) -> bool
    ensures { Unfit entry.now result }
{
    if out_of_range(octets::octet(entry, 7), octets::word16(entry, 8)) {
        return true;
    }
    if octets::octet(entry, 0) == 4 {
        return ip_out_of_range(octets::octet(entry, 18), octets::octet(entry, 19));
    }
    false
}

#[tactic(auto, unfolding(crate::specs::Contents::out_of_range))]
pub fn out_of_range(choice: u8, vlan: u16) -> bool
    ensures { Ranges choice vlan result }
{
    match choice {
        1..=3 => 4094 < vlan,
        _ => true,
    }
}

#[tactic(auto, unfolding(crate::specs::Contents::ip_out_of_range))]
pub fn ip_out_of_range(dscp: u8, protocol: u8) -> bool
    ensures { IpRanges dscp protocol result }
{
    match protocol {
        1..=4 => 63 < dscp && dscp != 255,
        _ => true,
    }
}
