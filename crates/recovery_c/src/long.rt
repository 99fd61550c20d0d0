// The calls on a state of any history length. The compiler is told to leave those that `recoveries` uses apart from it (tools/archive): so
// a call on a short state, which is the usual one, needs no room on the stack (docs/MEASURES.md).
ghost use Rattle.recovery.specs.declared.Packet.TheVariants as packet;
ghost use Rattle.calls.specs.declared.Call.TheVariants as call;
ghost use Rattle.recovery_c.specs.Recoveries.{StepsTo, TestsTo};

use calls::Call;
use octets::Refusal;
use recovery::Packet;

// The call is made on the state that the words hold, and the next state's words take their place.
fn step(call: Call, state: &mut [u64]) -> u8
    ensures { StepsTo call state.old result state.new }
{
    match states::read(state) {
        Some(s) => {
            let step = calls::take(s, call);
            states::keep(step.state, state);
            answers::code(step.answer)
        }
        None => Refusal::Unsound.number(),
    }
}

pub(crate) fn numbered(state: &mut [u64], number: u16) -> u8
    ensures { StepsTo (call.Packet (packet.Numbered number)) state.old result state.new }
{
    step(Call::Packet(Packet::Numbered(number)), state)
}

fn tagless(state: &mut [u64]) -> u8
    ensures { StepsTo (call.Packet packet.Tagless) state.old result state.new }
{
    step(Call::Packet(Packet::Tagless), state)
}

fn tick(state: &mut [u64]) -> u8
    ensures { StepsTo call.Tick state.old result state.new }
{
    step(Call::Tick, state)
}

fn reset(state: &mut [u64]) -> u8
    ensures { StepsTo call.Reset state.old result state.new }
{
    step(Call::Reset, state)
}

fn latent_reset(state: &mut [u64]) -> u8
    ensures { StepsTo call.LatentReset state.old result state.new }
{
    step(Call::LatentReset, state)
}

// Each call by itself, so that the compiler makes a way of its own for it, and one that takes nothing but the lent words: so a call leaves
// its own room on the stack before it goes there.
pub(crate) fn step_apart(call: Call, state: &mut [u64]) -> u8
    ensures { StepsTo call state.old result state.new }
{
    match call {
        Call::Packet(Packet::Numbered(number)) => numbered(state, number),
        Call::Packet(Packet::Tagless) => tagless(state),
        Call::Tick => tick(state),
        Call::Reset => reset(state),
        Call::LatentReset => latent_reset(state),
        Call::LatentTest => step(Call::LatentTest, state),
    }
}

pub(crate) fn latent_test(state: &[u64]) -> u8
    ensures { TestsTo state.now result }
{
    match states::read(state) {
        Some(s) => answers::code(calls::take(s, Call::LatentTest).answer),
        None => Refusal::Unsound.number(),
    }
}
