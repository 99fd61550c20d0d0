// A call on a recovery state by its name, with an answer of one kind: what the tape and the door for C have in common. Whatever state is
// handed in, there is an answer, and a refusal hands the state back as it was.
#![tactic(auto)]

mod answering;

pub use answering::take;
use recovery::Packet;

#[derive(Clone, Copy)]
pub enum Call {
    Packet(Packet),
    Tick,
    Reset,
    LatentReset,
    LatentTest,
}
