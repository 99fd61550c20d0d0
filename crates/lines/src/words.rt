// The words that lines are made of. They stand one behind the other, so that one part of one table is lent whatever the line: word i from
// ENDS[i] to ENDS[i + 1].
ghost use Rattle.std.specs.Prelude.{◌≡◌, ◌+◌, ◌≤◌, ◌<◌, length};
ghost use Rattle.lines.specs.Words.{word_at, place as place_of, Appends};

use crate::Line;

const WORDS: [u8; 154] =
    *b"ok\npass\ndiscard\ntick\nreset\nlatent reset\nlatent ok\nlatent error\nfault \npassed= discarded= order= rogue= lost= tagless= resets= latent-resets= before-first=";

const ENDS: [u8; 20] = [
    0, 3, 8, 16, 21, 27, 40, 50, 63, 69, 70, 77, 88, 95, 102, 108, 117, 125, 140, 154,
];

pub const FAULT: usize = 8;

pub const NEWLINE: usize = 9;

pub const LABELS: usize = 10;

// Which word an event's line is.
pub fn place(line: Line) -> usize
    ensures { result ≡ place_of line }
{
    line as usize
}

pub fn append(part: &[u8], page: &mut [u8], at: usize) -> usize
    requires { at + length part.now ≤ length page.old }
    ensures { Appends part.now page.old at result page.new }
{
    octets::put(part, &mut page[at..]);
    at + part.len()
}

pub fn word(i: usize, page: &mut [u8], at: usize) -> usize
    requires i_bound { i < 19 }
    requires i_in_bounds { at + length (word_at i) ≤ length page.old }
    ensures { Appends (word_at i) page.old at result page.new }
{
    append(&WORDS[ENDS[i] as usize..ENDS[i + 1] as usize], page, at)
}
