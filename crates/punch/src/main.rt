// Punches a bench tape: a readable text from standard input, one event a line, to the octets of a tape on standard output.
//
//     setup vector 0 sequence 4 100 100 2 1     rule, taken, use, H, ms, ticks per second, paths, difference
//     packet 10     none     tick     tick 30     reset     latent reset     latent test
//     octets 0F 00                              octets as they are, for what is no event
//
// A rule is `vector` or `match`, and a use `sequence` or `individual`; either may be a number too, so that one that there is not can be
// punched.
// A line that begins with # and a blank line say nothing. What a line says wrong goes to standard error with its number, and then no tape
// is written. Whether the events make sense together is the tape's to say, so that a tape with a fault can be punched too.
#![tactic(auto)]

mod lines;
mod mistakes;
mod tape;
mod words;

use mistakes::Wrong;
use std::io;
use std::io::{Eprint, Input, Print};
use tape::Tape;

// The whole text; its last line may lack the newline.
fn punch(text: &[u8], tape: &mut Tape) -> Result<(), Wrong> {
    for (i, line) in text.split(|letter| *letter == b'\n').enumerate() {
        lines::punch(line, tape).map_err(|mistake| Wrong {
            line: i + 1,
            mistake,
        })?;
    }
    Ok(())
}

fn main(rt: HostRuntime) -> io::Result<()> {
    let mut text = [0u8; 65536];
    let n = input::read_full(&mut rt.reader(), &mut text)?;
    let mut tape = Tape::new(rt.alloc())?;
    match punch(&text[..n], &mut tape) {
        Ok(()) => rt.write_all(tape.octets()),
        Err(wrong) => eprintln!(rt; "{wrong}"),
    }
}
