// Whether two entries for one address could both match a frame (document 02, CR 8).
ghost use Rattle.std.specs.Prelude.{◌≡◌};
ghost use Rattle.entry.specs.Clash.{meet as meet_by, Clashes};

// Of two entries of kind 1, or of kind 2, each by its front and its VLAN. Kind and address come first: they tell most entries apart.
#[tactic(auto, unfolding(crate::specs::Clash::clash_by))]
pub fn clash(front: u64, vlan: u16, other: u64, beside: u16) -> bool
    ensures { Clashes front vlan other beside result }
{
    if front / 256 != other / 256 {
        return false;
    }
    meet((front % 256) as u8, vlan, (other % 256) as u8, beside)
}

// Whether two choices and VLANs leave a frame for both.
#[tactic(auto, unfolding(crate::specs::Clash::meet))]
fn meet(choice: u8, vlan: u16, other: u8, beside: u16) -> bool
    ensures { result ≡ meet_by choice vlan other beside }
{
    // a C-TAG with VLAN id 0 is tagged and priority
    if vlan == 0 && beside == 0 {
        return true;
    }
    // priority allows no VLAN but 0
    if choice == 2 || other == 2 {
        return false;
    }
    vlan == 0 || beside == 0 || vlan == beside
}
