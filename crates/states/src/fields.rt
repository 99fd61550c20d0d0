// Which words hold a state, the state of such words, and the words of a state.
ghost use Rattle.std.specs.Prelude.{◌≡◌, ◌<◌, length, MatchOption};
ghost use Rattle.std.specs.Array.{IsFirstChunk};
ghost use Rattle.setup.specs.Range.{in_range};
ghost use Rattle.states.specs.Fields.{Holds, fields_fit, none_past, setup_in, marks_in, counters_in, state_of, words_of};
ghost use Rattle.states.specs.Fields.{short_in, ReadsState, ReadsShort, Keeps, KeepsShort};

use counters::Counters;
use marks::Marks;
use recovery::State;
use rules::First;
use setup::{Milliseconds, Setup};

// The words of a state.
type Words = [u64; 31];

// The first of what is lent, where there are enough.
fn first_words(state: &[u64]) -> Option<&Words>
    ensures { MatchOption result (length state.now < 31) (λ words. IsFirstChunk state.now words.now 31) }
{
    state.first_chunk()
}

fn fields_fit(state: &Words) -> bool
    ensures { result ≡ fields_fit state.now }
{
    (state[0] == 1095260676)
        & (state[1] < 256)
        & (state[2] < 256)
        & (state[3] < 256)
        & (state[4] < 65536)
        & (state[5] < 4294967296)
        & (state[6] < 65536)
        & (state[7] < 256)
        & (state[8] < 4294967296)
        & (state[9] < 65536)
        & (state[18] < 65536)
        & (state[19] < 2)
}

fn setup_in(state: &Words) -> Setup
    requires { Holds state.now }
    ensures { result ≡ setup_in state.now }
{
    let timeout = Milliseconds(state[5] as u32);
    Setup {
        rule: state[1] as u8,
        taken: state[2] as u8,
        usage: state[3] as u8,
        history: state[4] as u16,
        timeout,
        rate: state[6] as u16,
        paths: state[7] as u8,
        difference: state[8] as u32,
    }
}

fn counters_in(state: &Words) -> Counters
    ensures { result ≡ counters_in state.now }
{
    Counters {
        passed: state[21],
        discarded: state[22],
        order: state[23],
        rogue: state[24],
        lost: state[25],
        tagless: state[26],
        resets: state[27],
        latent_resets: state[28],
        before_first: state[29],
    }
}

fn marks_in(state: &Words) -> Marks
    ensures { result ≡ marks_in state.now }
{
    Marks {
        w0: state[10],
        w1: state[11],
        w2: state[12],
        w3: state[13],
        w4: state[14],
        w5: state[15],
        w6: state[16],
        w7: state[17],
    }
}

fn unpack(state: &Words, marks: Marks) -> State
    requires holds { Holds state.now }
    requires marks_value { marks ≡ marks_in state.now }
    ensures { result ≡ state_of state.now }
{
    let setup = setup_in(state);
    let newest = state[9] as u16;
    let first = First(state[18] as u16);
    let take_any = state[19] == 1;
    let left = state[20];
    let base = state[30];
    let counters = counters_in(state);
    State::stored(setup, newest, marks, first, take_any, left, counters, base)
}

fn setup_fits(state: &Words) -> bool
    ensures { result ≡ in_range (setup_in state.now) }
{
    setup::check_numbers(
        state[1], state[2], state[3], state[4], state[5], state[6], state[7],
    )
    .is_ok()
}

// The state that the words hold where its setup is in range, its marks handed in. The setup is checked first, on the words as they are,
// with one test for each number that has a range: whether its field can hold the word and whether the value is in range then say nothing
// new, and the compiler leaves these tests out. The use is asked by itself before: of three flags in one test the compiler would ask two
// again (docs/MEASURES.md).
#[tactic(auto, using(crate::proofs::ReadLaws::no_use))]
fn read_with(state: &Words, marks: Marks) -> Option<State>
    requires { marks ≡ marks_in state.now }
    ensures { ReadsState state.now result }
{
    if 1 < state[3] {
        return None;
    }
    if !setup_fits(state) {
        return None;
    }
    if !fields_fit(state) {
        return None;
    }
    Some(unpack(state, marks))
}

// The state that the words hold, where its setup is in range. Whether it is sound is what every call on it asks first.
pub fn read(state: &[u64]) -> Option<State>
    ensures { ReadsState state.now result }
{
    let words = first_words(state)?;
    read_with(words, marks_in(words))
}

// Whether the words of the marks past the first are 0.
fn none_past_the_first(state: &Words) -> bool
    ensures { result ≡ none_past state.now }
{
    (state[11] == 0)
        & (state[12] == 0)
        & (state[13] == 0)
        & (state[14] == 0)
        & (state[15] == 0)
        & (state[16] == 0)
        & (state[17] == 0)
}

// The same where the history has no more marks than a word and those past it are clear: the compiler knows the words past the first, and
// no step has them in hand (docs/MEASURES.md).
pub fn read_short(state: &[u64]) -> Option<State>
    ensures { ReadsShort state.now result }
{
    let words = first_words(state)?;
    if 64 < words[4] {
        return None;
    }
    if !none_past_the_first(words) {
        return None;
    }
    let marks = Marks {
        w0: words[10],
        ..marks::none()
    };
    read_with(words, marks)
}

fn pack(s: State) -> Words
    ensures { result ≡ words_of s }
{
    let setup = s.setup;
    let marks = s.marks;
    let counters = s.counters;
    let rule = setup.rule as u64;
    let taken = setup.taken as u64;
    let usage = setup.usage as u64;
    let history = setup.history as u64;
    let milliseconds = setup.timeout.0 as u64;
    let rate = setup.rate as u64;
    let paths = setup.paths as u64;
    let difference = setup.difference as u64;
    let newest = s.newest as u64;
    let first = s.first.0 as u64;
    [
        1095260676,
        rule,
        taken,
        usage,
        history,
        milliseconds,
        rate,
        paths,
        difference,
        newest,
        marks.w0,
        marks.w1,
        marks.w2,
        marks.w3,
        marks.w4,
        marks.w5,
        marks.w6,
        marks.w7,
        first,
        s.take_any as u64,
        s.left.count(),
        counters.passed,
        counters.discarded,
        counters.order,
        counters.rogue,
        counters.lost,
        counters.tagless,
        counters.resets,
        counters.latent_resets,
        counters.before_first,
        s.base,
    ]
}

// The state with the words of the marks past the first that are lent.
fn over(s: State, state: &Words) -> State
    ensures { result ≡ short_in state.now s }
{
    let lent = marks_in(state);
    let marks = Marks {
        w0: s.marks.w0,
        ..lent
    };
    State { marks, ..s }
}

// The words of the state in place of the first lent ones, if there is room for them all.
pub fn keep(s: State, state: &mut [u64]) -> bool
    ensures { Keeps s state.old result state.new }
{
    octets::put(&pack(s), state)
}

// The same but for the words of the marks past the first, which stay as they are.
pub fn keep_short(s: State, state: &mut [u64]) -> bool
    ensures { KeepsShort s state.old result state.new }
{
    match first_words(state) {
        Some(words) => keep(over(s, words), state),
        None => false,
    }
}
