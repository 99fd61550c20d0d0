// The two kinds of effect.
ghost use Rattle.std.specs.Prelude.{◌≡◌};
ghost use Rattle.rules.specs.Effects.{accepted, discarded};

use crate::Effect;
use marks::Marks;

pub(crate) fn accept(newest: u16, marks: Marks, order: u64) -> Effect
    ensures { result ≡ accepted newest marks order }
{
    Effect {
        passes: true,
        newest,
        marks,
        order,
        rogue: 0,
        lost: 0,
    }
}

pub(crate) fn discard(newest: u16, marks: Marks, rogue: u64) -> Effect
    ensures { result ≡ discarded newest marks rogue }
{
    Effect {
        passes: false,
        newest,
        marks,
        order: 0,
        rogue,
        lost: 0,
    }
}
