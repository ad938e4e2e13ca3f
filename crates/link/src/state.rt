//! The parts of the state, and what a step has the controller do.
ghost use Rattle.std.specs.Prelude.{◌≡◌};
ghost use Rattle.link.specs.State.{store_of};

use crate::frames::Frame;
use operations::operation::Operation;
use operations::store::Store;
use status::drives::Drives;
use status::words::{Outcome, Word};

/// A string from the host as far as it has come: how many bytes, and the bytes.
#[derive(Clone, Copy, Default)]
pub struct Collected {
    pub length: u8,
    pub c0: u8,
    pub c1: u8,
    pub c2: u8,
    pub c3: u8,
    pub c4: u8,
    pub c5: u8,
    pub c6: u8,
    pub c7: u8,
}

impl Collected {
    /// The store that a whole string is: its address and its operand.
    #[tactic(auto, unfolding(crate::specs::State::store_of))]
    pub fn store(self) -> Store
        ensures { result ≡ store_of self }
    {
        Store {
            address: self.c1,
            first: self.c2,
            second: self.c3,
            third: self.c4,
            fourth: self.c5,
        }
    }
}

/// What is sent: a load's reply, the secondary update before an interrupt, the interrupt that ends a store, or the
/// interrupt of a drive that changed.
#[derive(Clone, Copy)]
pub enum Kind {
    Load = 0,
    Secondary = 1,
    Completion = 2,
    Change = 3,
}

/// A string on its way to the host. The bytes are kept, since they go again after a no.
#[derive(Clone, Copy)]
pub struct Send {
    pub kind: Kind,
    pub bytes: Frame,
    pub noes: u8,
}

/// What the controller waits for, with what is in hand.
#[derive(Clone, Copy)]
pub enum Phase {
    /// the next byte of a string, with those that have come
    Collecting(Collected),
    /// the answer to ACK, with the string that it is for
    AckOffered(Collected),
    /// the answer to a string that was sent
    Sending(Send),
    /// the answer to GO
    GoOffered(Store),
    /// the data call of a write
    DataAwaited(Store),
    /// the result of an operation
    ResultAwaited(Operation, Store),
    /// the answer to EOR, and whether the store asks an interrupt
    EndOffered(bool),
}

/// All but the phase.
#[derive(Clone, Copy)]
pub struct Body {
    pub drives: Drives,
    pub selected: u8,
    pub changed: bool,
    pub enable: bool,
    pub outcome: Outcome,
    pub tertiary: Word,
    pub quintary: Word,
}

/// What a step has the controller do: nothing, offer a byte, send a string, or order a motion.
#[derive(Clone, Copy)]
pub enum Action {
    Nothing,
    Byte(u8),
    Text(Frame),
    Order(Frame),
}
