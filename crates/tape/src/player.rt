// A whole tape: its lines on a page that has room for the longest output, and from there into the lent buffer.
ghost use Rattle.std.specs.Prelude.{◌≡◌, ◌≤◌, length};
ghost use Rattle.tape.specs.Player.{figures as figures_of, enough, played, output_of, PageHolds, Runs};

use counters::Counters;
use octets::Refusal;
use turns::Outcome;

// How long the longest output is.
const ENOUGH: usize = 53513;

type Page = [u8; ENOUGH];

// The counters in the order of the last line, which is the tape's and not theirs.
#[tactic(auto, unfolding(crate::specs::Player::figures))]
fn figures(k: Counters) -> [u64; 9]
    ensures { result ≡ figures_of k }
{
    [
        k.passed,
        k.discarded,
        k.order,
        k.rogue,
        k.lost,
        k.tagless,
        k.resets,
        k.latent_resets,
        k.before_first,
    ]
}

// The lines of a tape that is not too long. An event is as long as its kind says, so the places of the events are no range.
#[tactic(auto, using(crate::proofs::Played::starts, crate::proofs::Played::goes, crate::proofs::Turns::next_within))]
fn play(tape: &[u8], page: &mut Page) -> usize
    requires { length tape.now ≤ 4096 }
    ensures { PageHolds (played tape.now) result page.new }
{
    let mut at = 0;
    let mut written = 0;
    let mut bench = None;
    loop {
        match turns::take_turn(tape, at, bench) {
            Ok(Outcome::Next(line, state)) => {
                written = lines::write(line, page, written);
                at = at + 1 + events::width(octets::octet(tape, at));
                bench = Some(state);
            }
            Ok(Outcome::End(counters)) => return lines::counts(figures(counters), page, written),
            Err(refusal) => return lines::fault(refusal.number(), page, written),
        }
    }
}

// The whole output: "26 is checked before all else on a tape".
#[tactic(auto, using(crate::proofs::Whole::over, crate::proofs::Whole::not_over))]
fn output(tape: &[u8], page: &mut Page) -> usize
    ensures { PageHolds (output_of tape.now) result page.new }
{
    if tape.len() > 4096 {
        lines::fault(Refusal::TapeLong.number(), page, 0)
    } else {
        play(tape, page)
    }
}

// Runs the tape and writes its output to the start of `out`.
#[tactic(auto, unfolding(crate::specs::Player::run_checks, octets::specs::Checks::verdict))]
pub fn run(tape: &[u8], out: &mut [u8]) -> Result<usize, Refusal>
    ensures { Runs tape.now out.old result out.new }
{
    let mut page = [0; ENOUGH];
    let n = output(tape, &mut page);
    if octets::put(&page[..n], out) {
        Ok(n)
    } else {
        Err(Refusal::OutputShort)
    }
}
