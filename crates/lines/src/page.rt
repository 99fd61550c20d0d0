// A line written behind what a page already holds.
ghost use Rattle.std.specs.Prelude.{◌≡◌, ◌+◌, ◌≤◌, ◌<◌, ◌++◌, length, leb};
ghost use Rattle.lines.specs.Lines.{decimal, text, fault_text, counters_text, longest};
ghost use Rattle.lines.specs.Words.{word_at, AppendsWithin};
ghost use Rattle.lines.specs.Page.{WritesLine};

use crate::Line;
use crate::words::{FAULT, LABELS, NEWLINE, append, place, word};

// Whether the longest line fits behind a place.
fn has_room(length: usize, at: usize) -> bool
    ensures { result ≡ leb (at + longest) length }
{
    if 265 <= length {
        at <= length - 265
    } else {
        false
    }
}

// A word and the number behind it, in decimal.
fn count(i: usize, n: u64, page: &mut [u8], at: usize) -> usize
    requires i_bound { i < 19 }
    requires i_in_bounds { at + length (word_at i) + 20 ≤ length page.old }
    ensures { AppendsWithin (length (word_at i) + 20) (word_at i ++ decimal n) page.old at result page.new }
{
    let mut digits = [0u8; 20];
    let k = io::decimal(n, &mut digits);
    let behind = word(i, page, at);
    append(&digits[..k], page, behind)
}

// The line of an event.
pub fn write(line: Line, page: &mut [u8], at: usize) -> usize
    ensures { WritesLine (text line) page.old at result page.new }
{
    if has_room(page.len(), at) {
        word(place(line), page, at)
    } else {
        at
    }
}

// The line of a fault. It takes a number and no refusal: any number has its line.
pub fn fault(number: u8, page: &mut [u8], at: usize) -> usize
    ensures { WritesLine (fault_text number) page.old at result page.new }
{
    if has_room(page.len(), at) {
        let behind = count(FAULT, number as u64, page, at);
        word(NEWLINE, page, behind)
    } else {
        at
    }
}

// The last line of a tape without a fault: the nine counters, each behind its label.
pub fn counts(counters: [u64; 9], page: &mut [u8], at: usize) -> usize
    ensures { WritesLine (counters_text counters) page.old at result page.new }
{
    if has_room(page.len(), at) {
        let mut end = at;
        for i in 0..9 {
            end = count(LABELS + i, counters[i], page, end);
        }
        word(NEWLINE, page, end)
    } else {
        at
    }
}
