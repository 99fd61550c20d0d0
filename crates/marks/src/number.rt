// The eight words as one number (`number` of specs/Window): cut off, moved by whole words and within them, counted. Each word is made as
// every other is, so that the work does not go by where a mark stands or how far it moves.
ghost use Rattle.marks.specs.Window.{bits, most, words_of, same_words, number, marks_of};
ghost use Rattle.std.specs.Prelude.{◌≡◌, cond, ◌+◌, ◌-◌, ◌*◌, ◌/◌, ◌%◌, ◌^◌, ◌<◌, ◌≤◌, min, get_or};
ghost use Rattle.std.specs.Int.Bits.{bit_or};
ghost use Rattle.std.specs.Int.Count.{ones as ones_in};

use crate::Marks;

// How many marks there are.
pub(crate) const MOST: u32 = 512;

// How many marks a word has.
pub(crate) const WORD: u32 = 64;

// Every bit of a word.
pub(crate) const ALL: u64 = 18446744073709551615;

// A first word, and no mark past it.
pub(crate) fn alone(word: u64) -> Marks
    ensures { result ≡ marks_of word }
{
    Marks {
        w0: word,
        w1: 0,
        w2: 0,
        w3: 0,
        w4: 0,
        w5: 0,
        w6: 0,
        w7: 0,
    }
}

// A word, or none of its bits.
fn given(yes: bool, word: u64) -> u64
    ensures { result ≡ cond yes word 0 }
{
    if yes { word } else { 0 }
}

// How far the end of word i is past `end`.
fn past(i: u8, end: u32) -> u32
    ensures { result ≡ bits * i + bits - end }
{
    (WORD * i as u32 + WORD).saturating_sub(end)
}

// What of word i is below `end`.
#[tactic(auto, using(crate::proofs::Counted::mask_cut))]
fn below(word: u64, i: u8, end: u32) -> u64
    ensures { result ≡ word % 2 ^ min bits (end - bits * i) }
{
    word & given(WORD * (i as u32) < end, ALL >> (past(i, end) % WORD))
}

// The marks without those at `end` and above; there is none past the last.
pub(crate) fn cut(marks: Marks, end: u32) -> Marks
    ensures { result ≡ marks_of (number marks % 2 ^ end) }
{
    if MOST <= end {
        return marks;
    }
    Marks {
        w0: below(marks.w0, 0, end),
        w1: below(marks.w1, 1, end),
        w2: below(marks.w2, 2, end),
        w3: below(marks.w3, 3, end),
        w4: below(marks.w4, 4, end),
        w5: below(marks.w5, 5, end),
        w6: below(marks.w6, 6, end),
        w7: below(marks.w7, 7, end),
    }
}

// Whether two marks are the same. A derived == would stop at the first word that differs, by a branch at each.
pub(crate) fn same(a: Marks, b: Marks) -> bool
    ensures { result ≡ same_words a b }
{
    (a.w0 == b.w0)
        & (a.w1 == b.w1)
        & (a.w2 == b.w2)
        & (a.w3 == b.w3)
        & (a.w4 == b.w4)
        & (a.w5 == b.w5)
        & (a.w6 == b.w6)
        & (a.w7 == b.w7)
}

// Word i, or 0 where there is none.
#[tactic(auto, using(crate::proofs::Counted::pick_word))]
pub(crate) fn word_at(marks: Marks, i: u32) -> u64
    ensures { result ≡ get_or (words_of marks) i 0 }
{
    given(i == 0, marks.w0)
        | given(i == 1, marks.w1)
        | given(i == 2, marks.w2)
        | given(i == 3, marks.w3)
        | given(i == 4, marks.w4)
        | given(i == 5, marks.w5)
        | given(i == 6, marks.w6)
        | given(i == 7, marks.w7)
}

// A word with one more bit, where it is the word for it.
pub(crate) fn with(word: u64, here: bool, bit: u64) -> u64
    ensures { result ≡ bit_or word (cond here bit 0) }
{
    word | given(here, bit)
}

// How many marks of a word are set, by the language's own count.
pub(crate) fn count(word: u64) -> u32
    ensures value { result ≡ ones_in word }
    ensures upper_bound { result ≤ bits }
{
    word.count_ones()
}

// Eight words, from the i-th on, of a row that has the marks in its middle and eight words of none on either side.
fn eight(marks: Marks, i: usize) -> Marks
    requires { i ≤ 16 }
    ensures { result ≡ marks_of (number marks * 2 ^ most / 2 ^ (bits * i) % 2 ^ most) }
{
    let row = [
        0, 0, 0, 0, 0, 0, 0, 0, marks.w0, marks.w1, marks.w2, marks.w3, marks.w4, marks.w5,
        marks.w6, marks.w7, 0, 0, 0, 0, 0, 0, 0, 0,
    ];
    Marks {
        w0: row[i],
        w1: row[i + 1],
        w2: row[i + 2],
        w3: row[i + 3],
        w4: row[i + 4],
        w5: row[i + 5],
        w6: row[i + 6],
        w7: row[i + 7],
    }
}

// The marks moved by q whole words.
fn whole(marks: Marks, q: u32) -> Marks
    requires { q ≤ 8 }
    ensures { result ≡ marks_of (number marks * 2 ^ (bits * q) % 2 ^ most) }
{
    eight(marks, (8 - q) as usize)
}

// The marks from word i on.
fn behind(marks: Marks, i: u32) -> Marks
    requires { i ≤ 8 }
    ensures { result ≡ marks_of (number marks / 2 ^ (bits * i)) }
{
    eight(marks, (8 + i) as usize)
}

// A word moved by b marks, with those that the word below it carries over.
#[tactic(auto, using(crate::proofs::Counted::carry_or))]
fn carried(low: u64, word: u64, b: u32) -> u64
    requires { b < bits }
    ensures { result ≡ word * 2 ^ b % 2 ^ bits + low / 2 ^ (bits - b) }
{
    word << b | low >> 1 >> (63 - b)
}

// The marks moved by b places, fewer than a word has.
fn within(marks: Marks, b: u32) -> Marks
    requires { b < bits }
    ensures { result ≡ marks_of (number marks * 2 ^ b % 2 ^ most) }
{
    Marks {
        w0: carried(0, marks.w0, b),
        w1: carried(marks.w0, marks.w1, b),
        w2: carried(marks.w1, marks.w2, b),
        w3: carried(marks.w2, marks.w3, b),
        w4: carried(marks.w3, marks.w4, b),
        w5: carried(marks.w4, marks.w5, b),
        w6: carried(marks.w5, marks.w6, b),
        w7: carried(marks.w6, marks.w7, b),
    }
}

// How many whole words are moved: from the last one on there is nothing left to move.
fn words_of(places: u32) -> u32
    ensures { result ≡ min (places / bits) 8 }
{
    (places / WORD).min(8)
}

// The marks moved by any number of places: by whole words, and then within them.
pub(crate) fn moved(marks: Marks, places: u32) -> Marks
    ensures { result ≡ marks_of (number marks * 2 ^ places % 2 ^ most) }
{
    within(whole(marks, words_of(places)), places % WORD)
}

// How many marks are set from mark k on, word by word: what is left of its word, and the words behind it.
pub(crate) fn ones_from(marks: Marks, k: u32) -> u32
    requires { k ≤ most }
    ensures { result ≡ ones_in (number marks / 2 ^ k) }
{
    let rest = behind(marks, k / WORD);
    count(rest.w0 >> (k % WORD))
        + count(rest.w1)
        + count(rest.w2)
        + count(rest.w3)
        + count(rest.w4)
        + count(rest.w5)
        + count(rest.w6)
        + count(rest.w7)
}
