// Octets read from standard input or any other reader, for the programs.
#![tactic(auto)]

ghost use Rattle.std.specs.Prelude.{◌≤◌, length, IfOk};

use std::io;
use std::io::Read;

// Octets until the buffer is full or the input ends, however short the reads; how many they are. The library fills a slice by `read_exact`
// alone, which fails where the input ends first.
pub fn read_full(input: &mut impl Read, octets: &mut [u8]) -> io::Result<usize>
    ensures { IfOk result (λ n. n ≤ length octets.new) }
{
    let mut done = 0;
    while done < octets.len() {
        let n = input.read(&mut octets[done..])?;
        if n == 0 {
            break;
        }
        done += n;
    }
    Ok(done)
}
