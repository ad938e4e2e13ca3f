//! Where each field of a state stands among its bytes. The layout is stable: what changes a line here changes LAYOUT.
//!
//!   place  bytes  field
//!     0      1    the number of the layout
//!     1     24    drives 0 to 3, six bytes each: report, its reviewed copy, track, density, gap, guard
//!    25      1    the selected drive
//!    26      1    changed
//!    27      1    enable
//!    28      1    retry
//!    29      1    mark
//!    30      1    code
//!    31      1    motion
//!    32      2    count, high byte first
//!    34      7    host parity, overflow, underflow, write data late, read data late, supplied count, count valid
//!    41      4    tertiary
//!    45      4    quintary
//!    49      1    the phase
//!    50      9    what the phase holds, and zeros behind it
//!    59    164    the queues of jobs 0 to 3, 41 bytes each: its length, then eight stores of five bytes
//!   223      1    the job served last

use link::state::Kind;
use operations::operation::Operation;

/// The number of this layout. It is not 0, so that zeroed memory is no state.
pub const LAYOUT: u8 = 1;

pub const STATE_LENGTH: usize = 224;

pub const LAYOUT_PLACE: usize = 0;

pub const DRIVES_PLACE: usize = 1;

pub const SELECTED_PLACE: usize = 25;

pub const CHANGED_PLACE: usize = 26;

pub const ENABLE_PLACE: usize = 27;

pub const RETRY_PLACE: usize = 28;

pub const MARK_PLACE: usize = 29;

pub const CODE_PLACE: usize = 30;

pub const MOTION_PLACE: usize = 31;

pub const COUNT_PLACE: usize = 32;

pub const PARITY_PLACE: usize = 34;

pub const OVERFLOW_PLACE: usize = 35;

pub const UNDERFLOW_PLACE: usize = 36;

pub const WDL_PLACE: usize = 37;

pub const RDL_PLACE: usize = 38;

pub const SUPPLIED_PLACE: usize = 39;

pub const COUNTED_PLACE: usize = 40;

pub const TERTIARY_PLACE: usize = 41;

pub const QUINTARY_PLACE: usize = 45;

pub const PHASE_PLACE: usize = 49;

pub const HELD_PLACE: usize = 50;

pub const QUEUES_PLACE: usize = 59;

pub const LAST_PLACE: usize = 223;

/// How many bytes a drive has, and where its guard stands in them.
pub const DRIVE_LENGTH: usize = 6;

pub const GUARD_PLACE: usize = 5;

/// How many bytes a queue has, and a store.
pub const QUEUE_LENGTH: usize = 41;

pub const STORE_LENGTH: usize = 5;

/// How many bytes the layout's number and the body have, and the phase with what it holds.
pub const HEAD_LENGTH: usize = 49;

pub const PHASE_LENGTH: usize = 10;

/// The numbers of the phases, and the most that stands first in what one of them holds.
pub const COLLECTING: u8 = 0;

pub const ACK_OFFERED: u8 = 1;

pub const SENDING: u8 = 2;

pub const GO_OFFERED: u8 = 3;

pub const DATA_AWAITED: u8 = 4;

pub const RESULT_AWAITED: u8 = 5;

pub const END_OFFERED: u8 = 6;

pub const LAST_KIND: u8 = Kind::Change as u8;

pub const LAST_OPERATION: u8 = Operation::WriteMark as u8;

/// An answer.
///
///   place  bytes  field
///     0      1    the kind of action: 0 nothing, 1 offer a byte, 2 send a string, 3 order a motion
///     1      6    the byte, the string or the order, and zeros behind it
///     7      1    1 where a store's code is settled, else 0
///     8      1    code of that store
///     9      1    motion
///    10      2    count, high byte first
///    12      4    how many bytes of the lent space are given, high byte first
pub const ANSWER_LENGTH: usize = 16;
