// What is asked of the marks and done to them.
ghost use Rattle.marks.specs.Window.{most, bits, reach, StartsClear, ClearsFrom, IsSet, Sets, Slides};
ghost use Rattle.marks.specs.AtOnce.{ones_among, moved_by, Goes};
ghost use Rattle.std.specs.Prelude.{◌≡◌, ◌+◌, ◌-◌, ◌^◌, ◌≤◌, min};

use crate::number::{ALL, MOST, WORD, alone, count, cut, moved, ones_from, same, with, word_at};
use crate::{Marks, Slid};

#[tactic(auto, unfolding(crate::specs::Window::none))]
pub fn none() -> Marks
    ensures { StartsClear result }
{
    alone(0)
}

// Whether the marks at `history` and above are clear.
pub fn clear_from(marks: Marks, history: u32) -> bool
    ensures { ClearsFrom marks history result }
{
    same(marks, cut(marks, history))
}

// Whether mark k is set. A mark that there is not is clear.
pub fn is_set(marks: Marks, k: u32) -> bool
    ensures { IsSet marks k result }
{
    (word_at(marks, k / WORD) >> (k % WORD)) % 2 == 1
}

// The marks with mark k set. Of a mark that there is not they stay as they are.
pub fn set(marks: Marks, k: u32) -> Marks
    ensures { Sets marks k result }
{
    let i = k / WORD;
    let bit = 1 << (k % WORD);
    Marks {
        w0: with(marks.w0, i == 0, bit),
        w1: with(marks.w1, i == 1, bit),
        w2: with(marks.w2, i == 2, bit),
        w3: with(marks.w3, i == 3, bit),
        w4: with(marks.w4, i == 4, bit),
        w5: with(marks.w5, i == 5, bit),
        w6: with(marks.w6, i == 6, bit),
        w7: with(marks.w7, i == 7, bit),
    }
}

// The length that a history counts as: its own, or the nearest that there can be.
#[tactic(auto, unfolding(crate::specs::Window::reach))]
fn reach_of(history: u32) -> u32
    ensures { result ≡ reach history }
{
    history.clamp(1, MOST)
}

// How many marks leave: one at each place, until none is left.
fn count_leaving(reach: u32, places: u32) -> u32
    ensures { result ≡ min places reach }
{
    places.min(reach)
}

// A word of ones at the n marks from k on. No shift is by the whole word: n is at least 1, so that WORD - n and k are at most 63.
fn row(k: u32, n: u32) -> u64
    requires le_n { 1 ≤ n }
    requires n_bound { k + n ≤ bits }
    ensures { result ≡ 2 ^ (n + k) - 2 ^ k }
{
    ALL >> (WORD - n) << k
}

// How many of the n marks from k on are set, all of them in the first word.
fn ones_among(marks: Marks, k: u32, n: u32) -> u32
    requires le_n { 1 ≤ n }
    requires n_bound { k + n ≤ bits }
    ensures { result ≡ ones_among k n marks }
{
    count(marks.w0 & row(k, n))
}

// The marks moved `places` places in the first word alone and cut off at `reach`, which is in it.
fn move_word(marks: Marks, reach: u32, places: u32) -> Marks
    requires le_reach { 1 ≤ reach }
    requires reach_le_bits { reach ≤ bits }
    ensures { result ≡ moved_by reach places marks }
{
    if reach <= places {
        return none();
    }
    alone((marks.w0 << places) & row(0, reach))
}

// A slide of a history of up to a word. Of the places moved all are lost but those whose mark was set as it left; behind the marks of the
// history only clear ones leave.
fn slide_word(marks: Marks, reach: u32, places: u32) -> Slid
    requires le_reach { 1 ≤ reach }
    requires reach_le_bits { reach ≤ bits }
    requires le_places { 1 ≤ places }
    ensures { Goes reach places marks result }
{
    let leaving = count_leaving(reach, places);
    let ones = ones_among(marks, reach - leaving, leaving);
    let lost = (places - ones) as u64;
    let moved = move_word(marks, reach, places);
    Slid { marks: moved, lost }
}

// A slide of a longer one. With nothing at its length and above, the ones that leave are all from the first of the leaving marks on.
fn slide_words(marks: Marks, reach: u32, places: u32) -> Slid
    requires { reach ≤ most }
    ensures { Goes reach places marks result }
{
    let within = cut(marks, reach);
    let leaving = count_leaving(reach, places);
    let left = ones_from(within, reach - leaving);
    let lost = (places - left) as u64;
    let moved = cut(moved(within, places), reach);
    Slid { marks: moved, lost }
}

// The marks moved `places` places in one go. Where nothing moves, nothing is cut off.
pub fn slide(marks: Marks, history: u32, places: u32) -> Slid
    ensures { Slides marks history places result }
{
    if places == 0 {
        return Slid { marks, lost: 0 };
    }
    let reach = reach_of(history);
    if reach <= WORD {
        return slide_word(marks, reach, places);
    }
    slide_words(marks, reach, places)
}
