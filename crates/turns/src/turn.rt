// The checks of an event in their order, what it does, and its line.
ghost use Rattle.std.specs.Prelude.{◌≡◌};
ghost use Rattle.turns.specs.Turn.{setup_at, call_at, line_of, runs as runs_by, begins as begins_by, Turns};

use crate::Outcome;
use answers::Answer;
use calls::Call;
use lines::Line;
use octets::Refusal;
use recovery::{Packet, State};
use setup::Setup;

// The setup of an event. An event is handed on as the tape from its kind on.
#[tactic(auto, unfolding(crate::specs::Turn::setup_at))]
fn setup_of(event: &[u8]) -> Setup
    ensures { result ≡ setup_at event.now 0 }
{
    Setup::of(
        octets::octet(event, 1),
        octets::octet(event, 2),
        octets::octet(event, 3),
        octets::word16(event, 4),
        octets::word32(event, 6),
        octets::word16(event, 10),
        octets::octet(event, 12),
        octets::word32(event, 13),
    )
}

// The call of an event that is no setup.
#[tactic(auto, unfolding(crate::specs::Turn::call_at))]
fn call_of(event: &[u8]) -> Call
    ensures { result ≡ call_at event.now 0 }
{
    match octets::octet(event, 0) {
        1 => Call::Packet(Packet::Numbered(octets::word16(event, 1))),
        2 => Call::Packet(Packet::Tagless),
        3 => Call::Tick,
        4 => Call::Reset,
        5 => Call::LatentReset,
        _ => Call::LatentTest,
    }
}

// What a call's answer prints. No From: the rooms of answers and of lines do not know each other.
fn line_of(answer: Answer) -> Line
    ensures { result ≡ line_of answer }
{
    match answer {
        Answer::Pass => Line::Pass,
        Answer::Discard => Line::Discard,
        Answer::Tick => Line::Tick,
        Answer::Timeout => Line::Reset,
        Answer::Reset => Line::Reset,
        Answer::LatentReset => Line::LatentReset,
        Answer::Agrees => Line::LatentOk,
        Answer::Error => Line::LatentError,
    }
}

// What an event does that is no setup.
#[tactic(auto, unfolding(crate::specs::Turn::runs))]
fn runs(event: &[u8], state: State) -> Result<Outcome, Refusal>
    ensures { result ≡ runs_by event.now 0 state }
{
    let step = calls::take(state, call_of(event));
    let answer = step.answer?;
    Ok(Outcome::Next(line_of(answer), step.state))
}

// What a setup does.
#[tactic(auto, unfolding(crate::specs::Turn::begins))]
fn begins(event: &[u8]) -> Result<Outcome, Refusal>
    ensures { result ≡ begins_by event.now 0 }
{
    let fresh = State::fresh(setup_of(event))?;
    Ok(Outcome::Next(Line::Ok, fresh))
}

// The event at a place, or what stands at the end. The bench has a state once its setup came.
#[tactic(auto, using(crate::proofs::Rest::begins_rest, crate::proofs::Rest::runs_rest, octets::proofs::Parts::to_end), unfolding(crate::specs::Turn::outcome_at, crate::specs::Turn::event_at))]
pub fn take_turn(tape: &[u8], at: usize, bench: Option<State>) -> Result<Outcome, Refusal>
    ensures { Turns tape.now at bench result }
{
    if tape.len() <= at {
        let state = bench.ok_or(Refusal::SetupMisplaced)?;
        return Ok(Outcome::End(state.counters));
    }
    events::refused(tape, at, bench.is_some())?;
    let event = &tape[at..];
    match bench {
        None => begins(event),
        Some(state) => runs(event, state),
    }
}
