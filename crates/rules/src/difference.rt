// d, as number - newest modulo 65,536.
ghost use Rattle.std.specs.Prelude.{◌≡◌};
ghost use Rattle.rules.specs.Difference.{apart};

// Right across 65,535 too.
#[tactic(auto, unfolding(crate::specs::Difference::apart))]
pub(crate) fn apart_by(newest: u16, number: u16) -> u32
    ensures { result ≡ apart newest number }
{
    (number as u32 + 65536 - newest as u32) % 65536
}
