// One octet of kind and a body whose length the kind fixes, and the checks of an event in their order.
ghost use Rattle.std.specs.Prelude.{◌≡◌};
ghost use Rattle.events.specs.Event.{known as is_known, Lasts, Refuses};

use octets::Refusal;

#[tactic(auto, unfolding(crate::specs::Event::known))]
fn known(kind: u8) -> bool
    ensures { result ≡ is_known kind }
{
    matches!(kind, 1..=6 | 15)
}

// The octets behind an event's kind.
#[tactic(auto, unfolding(crate::specs::Event::width))]
pub fn width(kind: u8) -> usize
    ensures { Lasts kind result }
{
    match kind {
        1 => 2,
        15 => 16,
        _ => 0,
    }
}

// The first check that an event does not meet.
#[tactic(auto, using(crate::proofs::KnownKinds::known_within), unfolding(crate::specs::Event::checks, octets::specs::Checks::verdict))]
pub fn refused(tape: &[u8], at: usize, begun: bool) -> Result<(), Refusal>
    ensures { Refuses tape.now at begun result }
{
    let kind = octets::octet(tape, at);
    if !known(kind) {
        return Err(Refusal::EventKind);
    }
    if tape.len() - at <= width(kind) {
        return Err(Refusal::EventCut);
    }
    if (begun & (kind == 15)) | (!begun & (kind != 15)) {
        return Err(Refusal::SetupMisplaced);
    }
    Ok(())
}
