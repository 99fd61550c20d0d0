// Lent octets: big-endian numbers read from them, and a copy into a part of a lent buffer; and the refusals, which every room shares.
//
// Every call takes any slice and any place. An octet past the end counts as 0, and a copy that has no room is not begun.
#![tactic(auto)]

mod copy;
mod number;
mod refusing;

pub use copy::put;
pub use number::{octet, word16, word32, word48, word64};

// The refusals of every room ("When the layer says no", document 01, and the requests), each with its number, which a door for C and a
// tape's line give.
#[derive(Clone, Copy, Debug, PartialEq, Eq)]
pub enum Refusal {
    FrameShort = 1,
    FrameLong = 2,
    TagCut = 3,
    TagTwice = 4,
    ReservedVlan = 5,
    TagThere = 6,
    ResultLong = 7,
    OutputShort = 8,
    NoTag = 9,
    EntryKind = 10,
    EntryCut = 11,
    EntryRange = 12,
    TooManyEntries = 13,
    Unsound = 14,
    NoRule = 15,
    HistoryRange = 16,
    TimeoutRange = 17,
    RateRange = 18,
    PathsRange = 19,
    CardKind = 20,
    CardCut = 21,
    CalibrationRange = 22,
    EventKind = 23,
    EventCut = 24,
    SetupMisplaced = 25,
    TapeLong = 26,
    TakenOrUse = 27,
    WrongCheck = 28,
    PathId = 37,
}
