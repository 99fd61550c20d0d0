// The bench program (document 01, "The bench tape"): a tape from standard input, its lines to standard output. It reads to the end or to
// the first octet past 4,096, however short the reads; every rule of the tape is in `tape`.
#![tactic(auto)]

use std::io;
use std::io::{Input, Print};

fn main(rt: HostRuntime) -> io::Result<()> {
    let mut octets = [0u8; 4097];
    let n = input::read_full(&mut rt.reader(), &mut octets)?;
    let mut page = [0u8; 65536];
    // The page has room for every output: a refusal is not to be had.
    if let Ok(length) = tape::run(&octets[..n], &mut page) {
        rt.write_all(&page[..length])?;
    }
    Ok(())
}
