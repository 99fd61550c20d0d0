// The calls on a recovery state ("Numbering and recovery", document 01) for C: words are lent, the step is taken on the state that the
// first of them hold, and the next state's words take their place. Words that hold no sound state are 14.
ghost use Rattle.std.specs.Prelude.{◌≡◌, Some};
ghost use Rattle.octets.specs.Copy.{output_by};
ghost use Rattle.octets.specs.Checks.{verdict, answered};
ghost use Rattle.setup.specs.Values.{setup_of};
ghost use Rattle.recovery.specs.declared.Packet.TheVariants as packet;
ghost use Rattle.calls.specs.declared.Call.TheVariants as call;
ghost use Rattle.recovery.specs.Resets.{fresh_state};
ghost use Rattle.states.specs.Fields.{words_of, ReadsShort};
ghost use Rattle.recovery_c.specs.Recoveries.{begin_checks, BeginsTo, StepsTo, TestsTo};

use crate::long;
use calls::Call;
use octets::Refusal;
use recovery::{Packet, State};
use setup::Setup;

// A fresh state, written to the first words.
#[unsafe(no_mangle)]
pub extern "C" fn ahz_fresh_v4(
    rule: u8,
    taken: u8,
    usage: u8,
    history: u16,
    milliseconds: u32,
    rate: u16,
    paths: u8,
    difference: u32,
    state: &mut [u64],
) -> u8
    ensures { BeginsTo (setup_of rule taken usage history milliseconds rate paths difference) state.old result state.new }
{
    let setup = Setup::of(
        rule,
        taken,
        usage,
        history,
        milliseconds,
        rate,
        paths,
        difference,
    );
    words::code(begin_in(setup, state))
}

// A packet with a number.
#[unsafe(no_mangle)]
pub extern "C" fn ahz_numbered(state: &mut [u64], number: u16) -> u8
    ensures { StepsTo (call.Packet (packet.Numbered number)) state.old result state.new }
{
    match states::read_short(state) {
        Some(s) => step_short(s, Call::Packet(Packet::Numbered(number)), state),
        None => long::numbered(state, number),
    }
}

// A packet without a number.
#[unsafe(no_mangle)]
pub extern "C" fn ahz_tagless(state: &mut [u64]) -> u8
    ensures { StepsTo (call.Packet packet.Tagless) state.old result state.new }
{
    step_in(Call::Packet(Packet::Tagless), state)
}

#[unsafe(no_mangle)]
pub extern "C" fn ahz_tick(state: &mut [u64]) -> u8
    ensures { StepsTo call.Tick state.old result state.new }
{
    step_in(Call::Tick, state)
}

#[unsafe(no_mangle)]
pub extern "C" fn ahz_reset(state: &mut [u64]) -> u8
    ensures { StepsTo call.Reset state.old result state.new }
{
    step_in(Call::Reset, state)
}

#[unsafe(no_mangle)]
pub extern "C" fn ahz_latent_reset(state: &mut [u64]) -> u8
    ensures { StepsTo call.LatentReset state.old result state.new }
{
    step_in(Call::LatentReset, state)
}

#[unsafe(no_mangle)]
pub extern "C" fn ahz_latent_test(state: &[u64]) -> u8
    ensures { TestsTo state.now result }
{
    match states::read_short(state) {
        Some(s) => answers::code(calls::take(s, Call::LatentTest).answer),
        None => long::latent_test(state),
    }
}

#[tactic(auto, using(crate::proofs::Told::setup_refused), unfolding(crate::specs::Recoveries::begin_checks, recovery::specs::Resets::begun_from, setup::specs::Range::checked))]
fn begin_in(setup: Setup, state: &mut [u64]) -> Result<(), Refusal>
    ensures answer { result ≡ answered (verdict (begin_checks setup state.old)) tt }
    ensures words { state.new ≡ output_by (verdict (begin_checks setup state.old)) (words_of (fresh_state setup)) state.old }
{
    let fresh = State::fresh(setup)?;
    if states::keep(fresh, state) {
        Ok(())
    } else {
        Err(Refusal::OutputShort)
    }
}

// A step on the short state that the words hold: the words of its marks past the first are not touched. A state that is not sound is asked
// before, though the call asks too, so that there is one way to 14, which writes nothing (docs/MEASURES.md).
fn step_short(s: State, call: Call, state: &mut [u64]) -> u8
    requires { ReadsShort state.old (Some s) }
    ensures { StepsTo call state.old result state.new }
{
    if !s.is_sound() {
        return Refusal::Unsound.number();
    }
    let step = calls::take(s, call);
    states::keep_short(step.state, state);
    answers::code(step.answer)
}

// The way of every step but that of a packet with a number, which is taken most: a short state has one of its own, and any other one that
// is apart from it.
fn step_in(call: Call, state: &mut [u64]) -> u8
    ensures { StepsTo call state.old result state.new }
{
    match states::read_short(state) {
        Some(s) => step_short(s, call, state),
        None => {
            // what is handed on lies in memory, and the call itself need not
            let again = call;
            long::step_apart(again, state)
        }
    }
}
