//! The refusals of the calls: the papers' numbers and words (document 01, "Turned back"; document 02). Where more than
//! one of document 01's holds, the lowest is given; where those of document 02 stand, their requests say.
ghost use Rattle.std.specs.Prelude.{◌≡◌, Some};
ghost use Rattle.common.specs.Told.{number_of, words_of, refusal_number};

use std::error::Error;
use std::fmt;

/// Why a call is refused. The numbers are those that the functions for C answer.
#[derive(Clone, Copy, Debug, PartialEq, Eq)]
pub enum Refusal {
    // From the state.

    /// "a field out of range"
    StateDamaged = 1,
    /// "link call while data or result is awaited, or taken with no ACK offered"
    LinkNotAwaited = 2,
    /// "data or result not awaited"
    TransferNotAwaited = 3,
    /// "tick when not idle"
    NotIdle = 4,

    // From the input.

    /// "drive above 3"
    NoSuchDrive = 5,
    /// "check store not 512"
    CheckStoreLength = 6,
    /// "code not listed"
    CodeNotListed = 7,
    /// "mark flag against its rule, or late flags above 3"
    FlagsAgainstRule = 8,
    /// wrong length of image or marks, or "host bytes too many for the builder"
    WrongLength = 9,
    /// "mark value"
    MarkValue = 10,
    /// "the data call's or builder's image space, or the restorer's output space, short"
    SpaceShort = 11,
    /// "restorer: two bad of one parity"
    Unrestorable = 12,
    /// "the counts differ": of two passes
    CountsDiffer = 13,
    /// "a blockette is good in both and unlike"
    BlockettesUnlike = 14,
    /// "a place that is neither in the host bytes nor the value for none"
    NoSuchPlace = 15,
    /// "a job above 3, a store naming no drive or a reset store"
    StoreNotTaken = 16,
    /// "that job's queue holds eight"
    QueueFull = 17,
    /// "a width outside 1 to 64": of a moving view
    WidthOutOfRange = 18,
    /// "a run above 65,535"
    RunTooLong = 19,
    /// "a number above its limit": of the contest
    AboveLimit = 20,
}

impl From<Refusal> for u32 {
    ghost from_gives = { λ refusal number. number ≡ number_of refusal };

    fn from(refusal: Refusal) -> u32 {
        refusal as u32
    }
}

// The manual's words.
impl fmt::Display for Refusal {
    ghost output = { λ refusal. Some (words_of refusal) };

    fn fmt<W: fmt::Write>(&self, f: &mut fmt::Formatter<W>) -> fmt::Result {
        f.write_str(match self {
            Refusal::StateDamaged => "the bytes are no state, or a field is out of range",
            Refusal::LinkNotAwaited =>
                "byte, taken or broken while data or a result is awaited, or taken with no ACK offered",
            Refusal::TransferNotAwaited => "data or a result that is not awaited",
            Refusal::NotIdle => "a tick or a hand when not idle",
            Refusal::NoSuchDrive => "a report for a drive above 3",
            Refusal::CheckStoreLength => "a check store that is not 512 bytes",
            Refusal::CodeNotListed => "a code that is not listed for the operation",
            Refusal::FlagsAgainstRule => "the mark flag against its rule, or late flags above 3",
            Refusal::WrongLength => "a wrong length of image or marks",
            Refusal::MarkValue => "a mark value that is neither 1-9 nor 15",
            Refusal::SpaceShort => "a space that is too short for what is to be written",
            Refusal::Unrestorable => "two bad blockettes of one parity",
            Refusal::CountsDiffer => "two passes with different counts",
            Refusal::BlockettesUnlike => "a blockette good in both passes, and unlike",
            Refusal::NoSuchPlace => "a bad byte's place that is not among the host bytes",
            Refusal::StoreNotTaken =>
                "a job above 3, a store that names no drive, or a reset store",
            Refusal::QueueFull => "the queue of that job holds eight",
            Refusal::WidthOutOfRange => "a width outside 1 to 64",
            Refusal::RunTooLong => "a run above 65,535",
            Refusal::AboveLimit => "a number above its limit",
        })
    }
}

impl Error for Refusal {}

/// The number of a call's refusal, as C is answered: 0 where it is carried out.
pub fn refusal_number<T: Drop>(answer: &Result<T, Refusal>) -> u32
    ensures { result ≡ refusal_number answer.now }
{
    match answer {
        Ok(_) => 0,
        Err(refusal) => u32::from(*refusal),
    }
}
