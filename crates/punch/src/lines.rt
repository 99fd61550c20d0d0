// The events, a line each.
ghost use Rattle.std.specs.Prelude.{OnOk};

use crate::mistakes::Mistake;
use crate::tape::Tape;
use crate::words::{name, number, octet};

// The kinds of a tape's events.
#[derive(Clone, Copy)]
enum Kind {
    Packet = 1,
    Tagless = 2,
    Tick = 3,
    Reset = 4,
    LatentReset = 5,
    LatentTest = 6,
    Setup = 15,
}

// One line. Nothing is read past its first mistake.
pub fn punch(line: &[u8], tape: &mut Tape) -> Result<(), Mistake> {
    let mut words = line
        .split(|letter| matches!(*letter, b' ' | b'\t' | b'\r'))
        .filter(|word| !word.is_empty());
    let Some(event) = words.next() else {
        return Ok(());
    };
    if event.starts_with(b"#") {
        return Ok(());
    }
    match name(event, 8) {
        b"setup" => setup(&mut words, tape)?,
        b"packet" => {
            tape.push(Kind::Packet as u8)?;
            tape.put(&number::<u16>(next(&mut words)?)?.to_be_bytes())?;
        }
        b"none" => tape.push(Kind::Tagless as u8)?,
        b"tick" => tick(words.next(), tape)?,
        b"reset" => tape.push(Kind::Reset as u8)?,
        b"latent" => tape.push(latent(next(&mut words)?)? as u8)?,
        b"octets" => {
            for word in &mut words {
                tape.push(octet(word)?)?;
            }
        }
        _ => return Err(Mistake::NoEvent),
    }
    match words.next() {
        None => Ok(()),
        Some(_) => Err(Mistake::TooMany),
    }
}

// The next word, which must be there.
fn next<'a, W: Iterator<Item = &'a [u8]>>(words: &mut W) -> Result<&'a [u8], Mistake>
    requires { W.can_next words.old }
    ensures { OnOk result (W.can_next words.new) }
{
    words.next().ok_or(Mistake::TooFew)
}

// A setup's eight words: rule, taken, use, H, ms, ticks per second, paths, difference.
fn setup<'a, W: Iterator<Item = &'a [u8]>>(words: &mut W, tape: &mut Tape) -> Result<(), Mistake>
    requires { W.can_next words.old }
    ensures { OnOk result (W.can_next words.new) }
{
    tape.push(Kind::Setup as u8)?;
    tape.push(rule(next(words)?)?)?;
    tape.push(number(next(words)?)?)?;
    tape.push(usage(next(words)?)?)?;
    tape.put(&number::<u16>(next(words)?)?.to_be_bytes())?;
    tape.put(&number::<u32>(next(words)?)?.to_be_bytes())?;
    tape.put(&number::<u16>(next(words)?)?.to_be_bytes())?;
    tape.push(number(next(words)?)?)?;
    tape.put(&number::<u32>(next(words)?)?.to_be_bytes())
}

// One tick, or as many as the word says.
fn tick(word: Option<&[u8]>, tape: &mut Tape) -> Result<(), Mistake> {
    tape.push(Kind::Tick as u8)?;
    if let Some(word) = word {
        let count @ 1..=65536 = number::<u32>(word)? else {
            return Err(Mistake::NoNumber);
        };
        tape.fill(Kind::Tick as u8, count - 1)?;
    }
    Ok(())
}

// What is latent: a reset or a test.
fn latent(word: &[u8]) -> Result<Kind, Mistake> {
    match name(word, 8) {
        b"reset" => Ok(Kind::LatentReset),
        b"test" => Ok(Kind::LatentTest),
        _ => Err(Mistake::NoEvent),
    }
}

// The rule that a word names, or its number.
fn rule(word: &[u8]) -> Result<u8, Mistake> {
    match name(word, 8) {
        b"vector" => Ok(0),
        b"match" => Ok(1),
        _ => number(word),
    }
}

// The use that a word names, or its number.
fn usage(word: &[u8]) -> Result<u8, Mistake> {
    match name(word, 16) {
        b"sequence" => Ok(0),
        b"individual" => Ok(1),
        _ => number(word),
    }
}
