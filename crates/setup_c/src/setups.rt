// A setup by itself, and the conversion ("Numbering and recovery", document 01) for C.
ghost use Rattle.setup.specs.Values.{setup_of};
ghost use Rattle.setup_c.specs.Setups.{ConvertsTo, ChecksSetupTo};

use setup::{Milliseconds, Setup};

// Full ticks of a timeout.
#[unsafe(no_mangle)]
pub extern "C" fn ahz_ticks(milliseconds: u32, rate: u16) -> u64
    ensures { ConvertsTo milliseconds rate result }
{
    Milliseconds(milliseconds).ticks(rate).count()
}

// The verdict on a setup.
#[unsafe(no_mangle)]
pub extern "C" fn ahz_check_setup_v2(
    rule: u8,
    taken: u8,
    usage: u8,
    history: u16,
    milliseconds: u32,
    rate: u16,
    paths: u8,
    difference: u32,
) -> u8
    ensures { ChecksSetupTo (setup_of rule taken usage history milliseconds rate paths difference) result }
{
    let setup = Setup::of(
        rule,
        taken,
        usage,
        history,
        milliseconds,
        rate,
        paths,
        difference,
    );
    words::code(setup.check())
}
