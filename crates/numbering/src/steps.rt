// The generator: it gives its number, then adds one.
ghost use Rattle.numbering.specs.Steps.{Zeroes, Generates};

use crate::{Generated, Generator};

impl Generator {
    pub fn fresh() -> Generator
        ensures { Zeroes result }
    {
        Generator { number: 0 }
    }

    // 65,535 goes to 0.
    pub fn step(self) -> Generated
        ensures { Generates self result }
    {
        let number = self.number;
        let next = Generator {
            number: number.wrapping_add(1),
        };
        Generated { number, next }
    }

    pub fn reset(self) -> Generator
        ensures { Zeroes result }
    {
        Generator::fresh()
    }
}
