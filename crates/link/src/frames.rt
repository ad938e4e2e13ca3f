//! Strings of six bytes: those that carry a status word to the host, and motion orders.
ghost use Rattle.std.specs.Prelude.{◌≡◌};
ghost use Rattle.link.specs.Frames.{string_of, order_of};

use status::words::Word;

#[derive(Clone, Copy, Default)]
pub struct Frame {
    pub b0: u8,
    pub b1: u8,
    pub b2: u8,
    pub b3: u8,
    pub b4: u8,
    pub b5: u8,
}

impl Frame {
    /// A lead, a status word and the check byte that makes the XOR of all six 0.
    #[tactic(auto, unfolding(crate::specs::Frames::string_of))]
    pub fn string_of(lead: u8, word: Word) -> Frame
        ensures { result ≡ string_of lead word }
    {
        Frame {
            b0: lead,
            b1: word.b0,
            b2: word.b1,
            b3: word.b2,
            b4: word.b3,
            b5: lead ^ word.b0 ^ word.b1 ^ word.b2 ^ word.b3,
        }
    }

    /// A motion order.
    #[tactic(auto, unfolding(crate::specs::Frames::order_of))]
    pub fn order_of(
        operation: u8,
        drive: u8,
        track: u8,
        density: u8,
        third: u8,
        fourth: u8,
    ) -> Frame
        ensures { result ≡ order_of operation drive track density third fourth }
    {
        Frame {
            b0: operation,
            b1: drive,
            b2: track,
            b3: density,
            b4: third,
            b5: fourth,
        }
    }
}
