// Which states are sound: every call but `fresh` asks this first.
ghost use Rattle.std.specs.Prelude.{◌≡◌, cond, not, ◌&&◌, ◌||◌, ◌-◌, leb, eqb};
ghost use Rattle.marks.specs.Window.{mark};
ghost use Rattle.recovery.specs.Soundness.{TellsSound};

use crate::State;
use marks::Marks;
use rules::First;

// Whether the mark of a first place is set, where there is one: the n-th place has mark n - 1. That is all to be asked of it: under take-any,
// under match and at H and above the other tests leave no mark set. Both are asked, whatever the first says: behind a branch the compiler
// would make the tests of a sound state twice (docs/MEASURES.md).
fn first_marked(marks: Marks, first: First) -> bool
    ensures { result ≡ (eqb (mark (first.0 - 1) marks) 1 || eqb first.0 0) }
{
    let n = first.0;
    marks::is_set(marks, n.saturating_sub(1) as u32) | (n == 0)
}

// The other tests of a sound state, of its parts: `in_range` is that its setup is, `above` that the marks at H and above are clear, `bare`
// that all are, and `newest_marked` that mark 0 is set.
fn parts_agree(
    in_range: bool,
    rule: u8,
    above: bool,
    bare: bool,
    newest_marked: bool,
    take_any: bool,
    newest: u16,
    left: u64,
    full: u64,
) -> bool
    ensures { result ≡ in_range && above
        && cond take_any (eqb newest 65535 && bare) (leb 1 left && (not (eqb rule 0) || newest_marked))
        && (eqb rule 0 || bare) && leb left full }
{
    let known = in_range & above & (left <= full);
    if take_any {
        return known & (newest == 65535) & bare;
    }
    if rule == 0 {
        return known & (1 <= left) & newest_marked;
    }
    known & (1 <= left) & bare
}

impl State {
    #[tactic(auto, using(crate::proofs::FirstLaws::by_mark, crate::proofs::FirstLaws::unmarked_unsound), unfolding(crate::specs::Soundness::parts_agree, crate::specs::Soundness::awaits, setup::specs::Range::is_vector))]
    pub fn is_sound(self) -> bool
        ensures { TellsSound self result }
    {
        if !first_marked(self.marks, self.first) {
            return false;
        }
        let in_range = self.setup.check().is_ok();
        let above = marks::clear_from(self.marks, self.setup.history as u32);
        let bare = marks::clear_from(self.marks, 0);
        let newest_marked = marks::is_set(self.marks, 0);
        parts_agree(
            in_range,
            self.setup.rule,
            above,
            bare,
            newest_marked,
            self.take_any,
            self.newest,
            self.left.0,
            self.setup.full().count(),
        )
    }
}
