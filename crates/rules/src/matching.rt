// The match rule when take-any is off.
ghost use Rattle.rules.specs.Matching.{HearsMatch};

use crate::Effect;
use crate::difference::apart_by;
use crate::effects::{accept, discard};
use marks::Marks;

// Discarded if equal to newest; else order +1 unless d = 1.
pub fn hear_match(newest: u16, marks: Marks, number: u16) -> Effect
    ensures { HearsMatch newest marks number result }
{
    if number == newest {
        return discard(newest, marks, 0);
    }
    let far = apart_by(newest, number);
    accept(number, marks, (far != 1) as u64)
}
