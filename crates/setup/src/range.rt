// A setup by itself: 15, 27 (taken), 27 (use), 16 to 19, in this order.
ghost use Rattle.std.specs.Prelude.{◌≡◌, cond, Err};
ghost use Rattle.setup.specs.Range.{within as in_bounds, ChecksNumbers, ChecksSetup, GivesFull};

use crate::{Setup, Ticks};
use octets::Refusal;

fn within(lo: u64, hi: u64, n: u64) -> bool
    ensures { result ≡ in_bounds lo hi n }
{
    (lo <= n) & (n <= hi)
}

// One check, and the answer of those after it. By `?` each check would be a branch: as it stands, they are chosen between without one.
fn unless(holds: bool, refusal: Refusal, later: Result<(), Refusal>) -> Result<(), Refusal>
    ensures { result ≡ cond holds later (Err refusal) }
{
    if holds { later } else { Err(refusal) }
}

// The check of a setup's numbers before they are a setup's, as a state's words hold them: numbers of any size.
pub fn check_numbers(
    rule: u64,
    taken: u64,
    usage: u64,
    history: u64,
    milliseconds: u64,
    rate: u64,
    paths: u64,
) -> Result<(), Refusal>
    ensures { ChecksNumbers rule taken usage history milliseconds rate paths result }
{
    let from_paths = unless(within(2, 8, paths), Refusal::PathsRange, Ok(()));
    let from_rate = unless(within(1, 10000, rate), Refusal::RateRange, from_paths);
    let from_time = unless(
        within(1, 3600000, milliseconds),
        Refusal::TimeoutRange,
        from_rate,
    );
    let from_history = unless(within(2, 512, history), Refusal::HistoryRange, from_time);
    let from_usage = unless(usage <= 1, Refusal::TakenOrUse, from_history);
    let from_taken = unless(taken <= 1, Refusal::TakenOrUse, from_usage);
    unless(rule <= 1, Refusal::NoRule, from_taken)
}

impl Setup {
    // Whether the setup is in range, and else the refusal.
    pub fn check(self) -> Result<(), Refusal>
        ensures { ChecksSetup self result }
    {
        check_numbers(
            self.rule as u64,
            self.taken as u64,
            self.usage as u64,
            self.history as u64,
            self.timeout.0 as u64,
            self.rate as u64,
            self.paths as u64,
        )
    }

    // The timeout in ticks.
    pub fn full(self) -> Ticks
        ensures { GivesFull self result }
    {
        self.timeout.ticks(self.rate)
    }
}
