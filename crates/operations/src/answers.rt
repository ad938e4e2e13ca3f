//! The codes that a result may report: 0 never, 1 reported and no retry, 2 reported with retry. The single place for
//! reported codes.
ghost use Rattle.std.specs.Prelude.{◌≡◌};
ghost use Rattle.operations.specs.Answers.{answer_of, listing_number};

use crate::operation::Operation;

/// What an entry says of a code: that no result reports it, or that one may, and whether it asks a retry.
#[derive(Clone, Copy, Debug, PartialEq, Eq)]
pub enum Listing {
    Never,
    Reported,
    WithRetry,
}

// A row for each operation, a digit for each code from 0 to 31.
const ANSWERS: [[u8; 32]; 12] = [
    *b"10000002222022221112000200000000", // read
    *b"10000000000000000000000000000000", // check bytes
    *b"10000002222000000002200200000000", // supplied count
    *b"10000002220222222222200200000000", // write
    *b"10000022200000000000000200000000", // erase
    *b"10000022000000000000000000000000", // rewind
    *b"10000022000000000000000000000000", // fast forward
    *b"10000002222011211112000200000000", // skip forward
    *b"10000002020022200000000020000000", // skip reverse
    *b"10000002222022221112000200000000", // search forward
    *b"10000002020022200000000020000000", // search reverse
    *b"10000002220222000000000200000000", // write mark
];

// The answer of an operation and a code, as a number.
fn answer_of(operation: Operation, code: u8) -> u8
    ensures { result ≡ answer_of operation code }
{
    if 31 < code {
        return 0;
    }
    let row = operation.number() as usize;
    ANSWERS[row][code as usize] - b'0'
}

impl Operation {
    /// What the table says of a code.
    #[tactic(auto, using(crate::proofs::ListingLaws::few_answers))]
    pub fn listing(self, code: u8) -> Listing
        ensures { listing_number result ≡ answer_of self code }
    {
        match answer_of(self, code) {
            0 => Listing::Never,
            1 => Listing::Reported,
            _ => Listing::WithRetry,
        }
    }
}
