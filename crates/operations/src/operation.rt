//! An operation, and what of it counts in more than one rule.
ghost use Rattle.std.specs.Prelude.{◌≡◌, ◌≤◌, OkIff};
ghost use Rattle.operations.specs.Operation.{row_of, number_of, operation_of, move_of, order_byte, counts_bytes};
ghost use Rattle.operations.specs.Operation.{offers_end, moves_tape, supplies_count, is_read, brings_record, is_skip};
ghost use Rattle.operations.specs.Operation.{is_search, takes_mark};

/// The operations, with their numbers.
#[derive(Clone, Copy, Debug, PartialEq, Eq)]
pub enum Operation {
    Read = 0,
    CheckBytes = 1,
    SuppliedCount = 2,
    Write = 3,
    Erase = 4,
    Rewind = 5,
    FastForward = 6,
    SkipForward = 7,
    SkipReverse = 8,
    SearchForward = 9,
    SearchReverse = 10,
    WriteMark = 11,
}

/// How an operation moves tape.
#[derive(Clone, Copy, Debug, PartialEq, Eq)]
pub enum Motion {
    Still,
    Forward,
    Reverse,
    Rewinding,
    Winding,
    Writing,
    Erasing,
}

/// What counts of an operation in more than one rule: the first byte of its motion order, how it moves tape, whether
/// secondary is set to 0 past the test, and whether EOR is offered at its end.
#[derive(Clone, Copy, Debug, PartialEq, Eq)]
pub struct Row {
    pub order: u8,
    pub motion: Motion,
    pub counts: bool,
    pub ends: bool,
}

/// A number that no operation has.
#[derive(Clone, Copy, Debug, PartialEq, Eq)]
pub struct UnknownOperation(pub u8);

// An operation by its number.
impl TryFrom<u8> for Operation {
    type Error = UnknownOperation;

    ghost try_from_gives = { λ number found. OkIff found (number ≤ 11) (operation_of number) };

    fn try_from(number: u8) -> Result<Self, UnknownOperation> {
        match Operation::ALL.get(number as usize) {
            Some(&operation) => Ok(operation),
            None => Err(UnknownOperation(number)),
        }
    }
}

impl Motion {
    /// Whether tape moves at all.
    #[tactic(auto, unfolding(crate::specs::Operation::moves_tape))]
    pub fn moves_tape(self) -> bool
        ensures { result ≡ moves_tape self }
    {
        !matches!(self, Motion::Still)
    }
}

impl Operation {
    /// All of them, in that order.
    pub const ALL: [Operation; 12] = [
        Operation::Read,
        Operation::CheckBytes,
        Operation::SuppliedCount,
        Operation::Write,
        Operation::Erase,
        Operation::Rewind,
        Operation::FastForward,
        Operation::SkipForward,
        Operation::SkipReverse,
        Operation::SearchForward,
        Operation::SearchReverse,
        Operation::WriteMark,
    ];

    /// Its row. Check bytes give no order, and 0 stands there.
    pub fn row(self) -> Row
        ensures { result ≡ row_of self }
    {
        let (order, motion, counts, ends) = match self {
            Operation::Read => (0x40, Motion::Forward, true, true),
            Operation::CheckBytes => (0x00, Motion::Still, false, true),
            Operation::SuppliedCount => (0x80, Motion::Forward, true, true),
            Operation::Write => (0x50, Motion::Writing, true, true),
            Operation::Erase => (0x60, Motion::Erasing, false, false),
            Operation::Rewind => (0x10, Motion::Rewinding, false, false),
            Operation::FastForward => (0x11, Motion::Winding, false, false),
            Operation::SkipForward => (0x20, Motion::Forward, true, false),
            Operation::SkipReverse => (0x21, Motion::Reverse, true, false),
            Operation::SearchForward => (0x22, Motion::Forward, false, false),
            Operation::SearchReverse => (0x23, Motion::Reverse, false, false),
            Operation::WriteMark => (0x24, Motion::Writing, false, false),
        };
        Row {
            order,
            motion,
            counts,
            ends,
        }
    }

    /// Its number, for the table of answers.
    pub fn number(self) -> u8
        ensures { result ≡ number_of self }
    {
        self as u8
    }

    /// The first byte of its motion order.
    pub fn order_byte(self) -> u8
        ensures { result ≡ order_byte self }
    {
        self.row().order
    }

    /// How it moves tape.
    pub fn motion(self) -> Motion
        ensures { result ≡ move_of self }
    {
        self.row().motion
    }

    /// Whether secondary is set to 0 past the test.
    pub fn counts_bytes(self) -> bool
        ensures { result ≡ counts_bytes self }
    {
        self.row().counts
    }

    /// Whether EOR is offered at its end.
    pub fn offers_end(self) -> bool
        ensures { result ≡ offers_end self }
    {
        self.row().ends
    }

    /// A read with a supplied count.
    pub fn supplies_count(self) -> bool
        ensures { result ≡ supplies_count self }
    {
        matches!(self, Operation::SuppliedCount)
    }

    /// A read of either kind: it delivers bytes of its image.
    pub fn is_read(self) -> bool
        ensures { result ≡ is_read self }
    {
        matches!(self, Operation::Read | Operation::SuppliedCount)
    }

    /// A read or a forward skip whose image says its count.
    pub fn brings_record(self) -> bool
        ensures { result ≡ brings_record self }
    {
        matches!(self, Operation::Read | Operation::SkipForward)
    }

    /// A skip, forward or reverse.
    #[tactic(auto, unfolding(crate::specs::Operation::is_skip))]
    pub fn is_skip(self) -> bool
        ensures { result ≡ is_skip self }
    {
        matches!(self, Operation::SkipForward | Operation::SkipReverse)
    }

    /// A search for a mark.
    #[tactic(auto, unfolding(crate::specs::Operation::is_search))]
    pub fn is_search(self) -> bool
        ensures { result ≡ is_search self }
    {
        matches!(self, Operation::SearchForward | Operation::SearchReverse)
    }

    /// Whether the mark flag may be set: in a read, skip or search, but with no supplied count.
    #[tactic(auto, unfolding(crate::specs::Operation::takes_mark))]
    pub fn takes_mark(self) -> bool
        ensures { result ≡ takes_mark self }
    {
        self.brings_record() | self.is_search() | matches!(self, Operation::SkipReverse)
    }
}
