// The vector rule when take-any is off.
ghost use Rattle.std.specs.Prelude.{◌≡◌, cond, leb};
ghost use Rattle.rules.specs.Effects.{discarded};
ghost use Rattle.rules.specs.Vector.{late, onward, HearsVector};

use crate::Effect;
use crate::difference::apart_by;
use crate::effects::{accept, discard};
use marks::Marks;

// d <= 0, as k = -d.
#[tactic(auto, using(std::proofs::lemmas::Bool::Decides::nat_tests), unfolding(crate::specs::Vector::late))]
fn hear_behind(history: u32, newest: u16, marks: Marks, k: u32) -> Effect
    ensures { result ≡ cond (leb history k) (discarded newest marks 1) (late newest marks k) }
{
    if history <= k {
        return discard(newest, marks, 1);
    }
    if marks::is_set(marks, k) {
        return discard(newest, marks, 0);
    }
    accept(newest, marks::set(marks, k), 1)
}

// d > 0.
#[tactic(auto, using(std::proofs::lemmas::Bool::Decides::nat_tests, octets::proofs::Bools::one_unless), unfolding(crate::specs::Vector::onward))]
fn hear_ahead(history: u32, newest: u16, marks: Marks, number: u16, d: u32) -> Effect
    ensures { result ≡ cond (leb history d) (discarded newest marks 1) (onward history number marks d) }
{
    if history <= d {
        return discard(newest, marks, 1);
    }
    let slid = marks::slide(marks, history, d);
    let now = marks::set(slid.marks, 0);
    let order = (d != 1) as u64;
    Effect {
        passes: true,
        newest: number,
        marks: now,
        order,
        rogue: 0,
        lost: slid.lost,
    }
}

// Below 32,768 the number is ahead, and from there on behind.
pub fn hear_vector(history: u32, newest: u16, marks: Marks, number: u16) -> Effect
    ensures { HearsVector history newest marks number result }
{
    let far = apart_by(newest, number);
    if far == 0 {
        return hear_behind(history, newest, marks, 0);
    }
    if far < 32768 {
        return hear_ahead(history, newest, marks, number, far);
    }
    hear_behind(history, newest, marks, 65536 - far)
}
