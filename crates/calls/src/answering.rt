// What each call on a state answers.
ghost use Rattle.std.specs.Prelude.{◌≡◌, IsOkAnd, Err, MatchResult};
ghost use Rattle.calls.specs.Answering.{of_verdict, of_ticked, of_latent, Answers};

use crate::Call;
use answers::Answer;
use recovery::{Latent, State, Stepped, Ticked, Verdict};

// What each answer of recovery is as one of the common kind. A From could stand in neither room, since neither knows the other.
fn of_verdict(verdict: Verdict) -> Answer
    ensures { result ≡ of_verdict verdict }
{
    match verdict {
        Verdict::Pass => Answer::Pass,
        Verdict::Discard => Answer::Discard,
    }
}

fn of_ticked(ticked: Ticked) -> Answer
    ensures { result ≡ of_ticked ticked }
{
    match ticked {
        Ticked::Tick => Answer::Tick,
        Ticked::Reset => Answer::Timeout,
    }
}

fn of_latent(latent: Latent) -> Answer
    ensures { result ≡ of_latent latent }
{
    match latent {
        Latent::Agrees => Answer::Agrees,
        Latent::Error => Answer::Error,
    }
}

// A step, its answer as one of the common kind.
fn as_answer<A, F: FnOnce(A) -> Answer>(step: Stepped<A>, kind: F) -> Stepped<Answer>
    requires { F.IsAlwaysCallable kind }
    ensures answer { MatchResult step.answer (λ a. IsOkAnd result.answer (F.post kind a)) (λ refusal. result.answer ≡ Err refusal) }
    ensures state { result.state ≡ step.state }
{
    let state = step.state;
    Stepped {
        answer: step.answer.map(kind),
        state,
    }
}

pub fn take(state: State, call: Call) -> Stepped<Answer>
    ensures { Answers state call result }
{
    match call {
        Call::Packet(packet) => as_answer(state.packet(packet), of_verdict),
        Call::Tick => as_answer(state.tick(), of_ticked),
        Call::Reset => as_answer(state.reset(), |()| Answer::Reset),
        Call::LatentReset => as_answer(state.latent_reset(), |()| Answer::LatentReset),
        Call::LatentTest => Stepped {
            answer: state.latent_test().map(of_latent),
            state,
        },
    }
}
