//! What an operation leaves: motion, gap and retry.
ghost use Rattle.std.specs.Prelude.{◌≡◌};
ghost use Rattle.operations.specs.After.{loses_tape, usual_motion, motion_of, gap_of, gap_after, own_retry, code_retry};
ghost use Rattle.operations.specs.After.{retry_of, with_code};

use crate::answers::Listing;
use crate::codes::RECOVERABLE;
use crate::operation::{Motion, Operation};
use status::drives::{GAP_IMPROPER, GAP_LOST, GAP_PROPER, GAP_UNFINISHED};
use status::words::{Outcome, ResultRecord};

// The motion after which nobody knows where the tape is.
const LOST: u8 = 3;

// The codes that leave it so.
#[tactic(auto, unfolding(crate::specs::After::loses_tape))]
fn loses_tape(code: u8) -> bool
    ensures { result ≡ loses_tape code }
{
    matches!(code, 0x6 | 0x7 | 0x8 | 0x9 | 0x17 | 0x18)
}

impl Motion {
    // The motion of an operation that loses nothing.
    fn usual_motion(self) -> u8
        ensures { result ≡ usual_motion self }
    {
        match self {
            Motion::Still | Motion::Erasing => 0,
            Motion::Forward | Motion::Winding | Motion::Writing => 1,
            Motion::Reverse | Motion::Rewinding => 2,
        }
    }

    /// The motion by the final code.
    #[tactic(auto, unfolding(crate::specs::After::motion_of, common::specs::Pick::pick))]
    pub fn motion_of(self, code: u8) -> u8
        ensures { result ≡ motion_of self code }
    {
        if loses_tape(code) {
            return LOST;
        }
        self.usual_motion()
    }

    // The gap after a move that was made and lost nothing.
    #[tactic(auto, unfolding(crate::specs::After::gap_of, common::specs::Pick::pick))]
    fn gap_of(self, code: u8) -> u8
        ensures { result ≡ gap_of self code }
    {
        match (self, code) {
            (Motion::Reverse | Motion::Rewinding, _) => GAP_PROPER,
            (Motion::Winding, _) => GAP_LOST,
            (_, 0) => GAP_PROPER,
            (Motion::Writing, _) => GAP_UNFINISHED,
            _ => GAP_IMPROPER,
        }
    }

    /// The gap by the final code, from the gap before.
    #[tactic(auto, unfolding(crate::specs::After::gap_after, common::specs::Pick::pick))]
    pub fn gap_after(self, code: u8, gap: u8) -> u8
        ensures { result ≡ gap_after self code gap }
    {
        let moved = self.motion_of(code);
        if moved == 0 {
            return gap;
        }
        if moved == LOST {
            return GAP_LOST;
        }
        self.gap_of(code)
    }
}

// Of a code that no result reports, whether it asks a retry: all but 15 where only check blockettes are bad.
#[tactic(auto, unfolding(crate::specs::After::own_retry))]
fn own_retry(code: u8, checks_alone: bool) -> bool
    ensures { result ≡ own_retry code checks_alone }
{
    !((code == RECOVERABLE) & checks_alone)
}

impl Operation {
    // Of a final code, whether it asks a retry: one that a result reports by its entry in the table.
    #[tactic(auto, unfolding(crate::specs::After::code_retry, common::specs::Pick::pick))]
    fn code_retry(self, code: u8, checks_alone: bool) -> bool
        ensures { result ≡ code_retry self code checks_alone }
    {
        match self.listing(code) {
            Listing::Never => own_retry(code, checks_alone),
            Listing::Reported => false,
            Listing::WithRetry => true,
        }
    }

    /// Bit 2, by the final code and whether any of bits 16-20 is set that counts.
    #[tactic(auto, unfolding(crate::specs::After::retry_of))]
    pub fn retry_of(self, code: u8, checks_alone: bool, any_bit: bool) -> bool
        ensures { result ≡ retry_of self code checks_alone any_bit }
    {
        self.code_retry(code, checks_alone) | any_bit
    }
}

/// An outcome with a code that ends a store before any motion.
pub fn with_code(outcome: Outcome, code: u8) -> Outcome
    ensures { result ≡ with_code outcome code }
{
    Outcome {
        retry: own_retry(code, false),
        result: ResultRecord {
            code,
            motion: 0,
            ..outcome.result
        },
        ..outcome
    }
}
