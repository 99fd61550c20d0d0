// The address, tag and VLAN test of every kind.
//
// An entry's kind, address and choice are its first eight octets, and come as one number, the front.
ghost use Rattle.std.specs.Prelude.{◌≡◌};
ghost use Rattle.entry.specs.Front.{choice_fits, Allows};
ghost use Rattle.entry.specs.Matching.{Asks};

use frame::Header;

// 2 to the 48: there are so many addresses.
const ADDRESSES: u64 = 281474976710656;

// The frame's address that a kind asks for.
#[tactic(auto, unfolding(crate::specs::Matching::address_of))]
pub fn address_of(kind: u8, h: Header) -> u64
    ensures { Asks kind h result }
{
    if kind == 2 { h.source } else { h.destination }
}

// Whether an entry that asks for this address allows a frame that has a C-TAG or has none, and this VLAN id, 0 without one. The two come
// ready from the header, since a walk asks them of every entry. The address comes first: it tells most entries apart.
#[tactic(auto, unfolding(crate::specs::Front::allows_by))]
pub fn allows(front: u64, address: u64, vlan: u16, tagged: bool, id: u16) -> bool
    ensures { Allows front address vlan tagged id result }
{
    if front / 256 % ADDRESSES != address {
        return false;
    }
    if choice_fits((front % 256) as u8, tagged, id) {
        return vlan == 0 || vlan == id;
    }
    false
}

// A frame without C-TAG has VLAN id 0: so priority asks for the id alone, and the compiler keeps no flag for it through a walk.
#[tactic(auto, unfolding(crate::specs::Front::choice_fits))]
fn choice_fits(choice: u8, tagged: bool, vlan: u16) -> bool
    ensures { result ≡ choice_fits choice tagged vlan }
{
    match choice {
        1 => tagged,
        2 => vlan == 0,
        3 => true,
        _ => false,
    }
}
