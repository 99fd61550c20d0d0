// "Both sides of each edge" (document 01): every case is run, and what it gave is printed. The frame cases are frames of zeros with a tag
// or two put in. The cases with a star are proved besides: `Starred` of specs/Starred.antt.
#![tactic(auto)]

mod cases;

use cases::{CASES, Case};
use encoding::{Encoding, Sequence};
use octets::Refusal;
use recovery::{Packet, State, Verdict};
use setup::{Milliseconds, Setup};
use std::io;
use std::io::Print;

// A title, and what its case gave.
fn main(rt: HostRuntime) -> io::Result<()> {
    for (title, case) in &CASES {
        print!(rt; "{title}:")?;
        answer(&rt, case)?;
    }
    Ok(())
}

fn answer(to: &impl Print, case: &Case) -> io::Result<()> {
    match *case {
        Case::Hear(rule, history, numbers) => hear(to, rule, history, numbers),
        Case::Ticks(ms, rate) => println!(to; " {}", Milliseconds(ms).ticks(rate).count()),
        Case::Frame(tags, length) => frame(to, tags, length),
        Case::Trailer(six, payload) => trailer(to, six, payload),
        Case::Insert(encoding, path, length) => insert(to, encoding, path, length),
        Case::Six(encoding) => six(to, encoding),
    }
}

fn refused(to: &impl Print, refusal: Refusal) -> io::Result<()> {
    println!(to; " refused {}", refusal.number())
}

fn said(answer: Result<Verdict, Refusal>) -> &'static str {
    match answer {
        Ok(Verdict::Pass) => "pass",
        Ok(Verdict::Discard) => "discard",
        Err(_) => "refused",
    }
}

// What a fresh state answers to each number, and its counts of order and rogue after the last. The state is for sequence use, with 100 ms
// at 100 ticks per second, two paths and difference 1.
fn hear(to: &impl Print, rule: u8, history: u16, numbers: &[u16]) -> io::Result<()> {
    let mut state = match State::fresh(Setup::of(rule, 0, 0, history, 100, 100, 2, 1)) {
        Ok(fresh) => fresh,
        Err(refusal) => return refused(to, refusal),
    };
    for &number in numbers {
        let heard = state.packet(Packet::Numbered(number));
        print!(to; " {}", said(heard.answer))?;
        state = heard.state;
    }
    println!(to;
        ", order {}, rogue {}",
        state.counters.order, state.counters.rogue
    )
}

// The first octets of a buffer, or all of it.
fn front(octets: &[u8], length: usize) -> &[u8] {
    &octets[..length.min(octets.len())]
}

// Octets from a place of a frame on.
fn put_at(six: &[u8], at: usize, frame: &mut [u8]) {
    if at <= frame.len() {
        octets::put(six, &mut frame[at..]);
    }
}

// How a frame of that length is read whose octets behind the addresses begin with `tags`.
fn frame(to: &impl Print, tags: &[u8], length: usize) -> io::Result<()> {
    let mut octets = [0u8; 1523];
    put_at(tags, 12, &mut octets);
    match frame::read(front(&octets, length)) {
        Ok(header) => println!(to; " payload from {}", header.payload),
        Err(refusal) => refused(to, refusal),
    }
}

// The number that a frame of a PRP stream has, with so many octets of payload of which the last six are those.
fn trailer(to: &impl Print, six: &[u8], payload: u8) -> io::Result<()> {
    let end = 14 + usize::from(payload);
    let mut octets = [0u8; 32];
    put_at(six, end - 6, &mut octets);
    match encoding::read(front(&octets, end), Encoding::Prp) {
        Ok(packet) => match packet.sequence {
            Some(Sequence { number, path }) => println!(to; " number {number}, id {path}"),
            None => println!(to; " no number"),
        },
        Err(refusal) => refused(to, refusal),
    }
}

// What inserting number 258 with that id into a frame of that length gives: its length, or the refusal.
fn insert(to: &impl Print, encoding: Encoding, path: u8, length: usize) -> io::Result<()> {
    let octets = [0u8; 1523];
    let mut out = [0u8; 1523];
    match insertion::insert(front(&octets, length), encoding, 258, path, &mut out) {
        Ok(n) => println!(to; " length {n}"),
        Err(refusal) => refused(to, refusal),
    }
}

// The six octets of number 258 and id 10 in a frame with a payload of 4.
fn six(to: &impl Print, encoding: Encoding) -> io::Result<()> {
    let octets = [0u8; 18];
    let mut out = [0u8; 24];
    match insertion::insert(&octets, encoding, 258, 10, &mut out) {
        Ok(_) => {
            println!(to;
                " {:012x}",
                octets::word48(&out, encoding::place(encoding, 12, 18))
            )
        }
        Err(refusal) => refused(to, refusal),
    }
}
