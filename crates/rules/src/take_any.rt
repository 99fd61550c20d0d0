// A packet with a number at a state that takes any, under both rules.
ghost use Rattle.std.specs.Prelude.{◌≡◌};
ghost use Rattle.rules.specs.TakeAny.{first_marks, HearsFirst};

use crate::Effect;
use crate::effects::accept;
use marks::Marks;

// Mark 0 set under vector only.
#[tactic(auto, unfolding(crate::specs::TakeAny::first_marks))]
fn first_marks(vector: bool) -> Marks
    ensures { result ≡ first_marks vector }
{
    let bare = marks::none();
    if vector { marks::set(bare, 0) } else { bare }
}

#[tactic(auto, unfolding(crate::specs::TakeAny::first))]
pub fn hear_first(vector: bool, number: u16) -> Effect
    ensures { HearsFirst vector number result }
{
    accept(number, first_marks(vector), 0)
}
