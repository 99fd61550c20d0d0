// A packet by its rule, and the next state.
ghost use Rattle.std.specs.Prelude.{◌≡◌, cond};
ghost use Rattle.recovery.specs.declared.Verdict.TheVariants.{Pass, Discard};
ghost use Rattle.recovery.specs.Timer.{restarted};
ghost use Rattle.recovery.specs.Packets.{settled, Hears};

use crate::{Left, Packet, State, Stepped, Verdict, timer};
use octets::Refusal;
use rules::{Effect, Traced, Window};

fn verdict_of(passes: bool) -> Verdict
    ensures { result ≡ cond passes Pass Discard }
{
    if passes {
        Verdict::Pass
    } else {
        Verdict::Discard
    }
}

impl State {
    // The next state, of what the packet does and what becomes of the first place. The ticks left are handed in: a look at the setup here
    // makes a tape a sixth slower (docs/MEASURES.md).
    #[tactic(auto, unfolding(crate::specs::Packets::settled))]
    fn settle(
        mut self,
        take_any: bool,
        tagless: u64,
        left: Left,
        t: Traced,
        e: Effect,
    ) -> Stepped<Verdict>
        requires { left ≡ restarted e.passes self.setup self.left }
        ensures { result ≡ settled self take_any tagless t e }
    {
        self.newest = e.newest;
        self.marks = e.marks;
        self.first = t.first;
        self.take_any = take_any;
        self.left = left;
        self.counters = counters::count(self.counters, tagless, t.holes, e);
        Stepped {
            answer: Ok(verdict_of(e.passes)),
            state: self,
        }
    }

    // The first place is traced before the timer is asked: the other way round a step takes 0.6 to 1.1 ns more (docs/MEASURES.md).
    #[tactic(auto, unfolding(crate::specs::Packets::packet_of, crate::specs::Packets::heard, crate::specs::Packets::tracing, crate::specs::Packets::numbered, crate::specs::Packets::staying, setup::specs::Range::is_vector))]
    pub fn packet(self, packet: Packet) -> Stepped<Verdict>
        ensures { Hears self packet result }
    {
        if !self.is_sound() {
            return Stepped {
                answer: Err(Refusal::Unsound),
                state: self,
            };
        }
        match packet {
            Packet::Numbered(number) => {
                let window = Window {
                    rule: self.setup.rule,
                    history: self.setup.history,
                    take_any: self.take_any,
                    newest: self.newest,
                    marks: self.marks,
                };
                let e = window.hear_numbered(number);
                let t = window.trace(self.first, e.newest);
                let left = timer::left_after(e, self.setup, self.left);
                return self.settle(false, 0, left, t, e);
            }
            Packet::Tagless => {
                let e = rules::hear_no_number(self.setup.taken, self.newest, self.marks);
                let left = timer::left_after(e, self.setup, self.left);
                let t = Traced {
                    first: self.first,
                    holes: 0,
                };
                return self.settle(self.take_any, 1, left, t, e);
            }
        }
    }
}
