// The generator ("Numbering and recovery", document 01) for C.
ghost use Rattle.numbering_c.specs.Generators.{GeneratesTo, ZeroesTo};

use numbering::Generator;

// A fresh generator.
#[unsafe(no_mangle)]
pub extern "C" fn ahz_generator() -> u16
    ensures { ZeroesTo result }
{
    Generator::fresh().number
}

// The generator's number; the lent generator goes on to the next one.
#[unsafe(no_mangle)]
pub extern "C" fn ahz_generate(generator: &mut u16) -> u16
    ensures { GeneratesTo generator.old result generator.new }
{
    let number = *generator;
    let step = Generator { number }.step();
    *generator = step.next.number;
    step.number
}

// The lent generator goes back to 0.
#[unsafe(no_mangle)]
pub extern "C" fn ahz_generator_reset(generator: &mut u16)
    ensures { ZeroesTo generator.new }
{
    let number = *generator;
    *generator = Generator { number }.reset().number;
}
