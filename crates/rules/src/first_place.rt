// Where in the window the first packet's place stands, and the holes below it.
ghost use Rattle.std.specs.Prelude.{◌≡◌, ◌-◌, ◌≤◌, ◌<◌, min};
ghost use Rattle.rules.specs.FirstPlace.{nth, opened, carried, TracesFirst};

use crate::difference::apart_by;
use crate::{First, Traced, Window};

// The first packet's place is the newest, under vector only.
#[tactic(auto, unfolding(crate::specs::FirstPlace::opened))]
fn open(vector: bool) -> First
    ensures { result ≡ opened vector }
{
    if vector { First(1) } else { First(0) }
}

// The n-th place of the window after a slide of d places.
#[tactic(auto, using(crate::proofs::FirstLaws::carried_in, crate::proofs::FirstLaws::carried_out))]
fn carry(history: u16, n: u16, d: u32) -> First
    requires le_n { 1 ≤ n }
    requires le_d { 1 ≤ d }
    requires d_bound { d < 65536 }
    ensures { result ≡ carried history d (nth n) }
{
    let on = n as u32 + d;
    if on <= history as u32 {
        let place = on as u16;
        First(place)
    } else {
        First(0)
    }
}

// How many of the d places that a slide leaves lie below the n-th.
fn leaving_below(history: u16, n: u16, d: u32) -> u32
    ensures { result ≡ min d (history - n) }
{
    let below = history.saturating_sub(n) as u32;
    d.min(below)
}

impl Window {
    // `first` is the first place before the packet, and `now` the newest number after it.
    pub fn trace(self, first: First, now: u16) -> Traced
        ensures { TracesFirst self first now result }
    {
        if self.take_any {
            return Traced {
                first: open(self.rule == 0),
                holes: 0,
            };
        }
        let n = first.0;
        if (n == 0) | (now == self.newest) {
            return Traced { first, holes: 0 };
        }
        let d = apart_by(self.newest, now);
        let left = leaving_below(self.history, n, d);
        let early = marks::slide(self.marks, self.history as u32, left);
        let carried = carry(self.history, n, d);
        Traced {
            first: carried,
            holes: early.lost,
        }
    }
}
