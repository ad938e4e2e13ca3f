//! The limits of a job line and of the text that is printed for it, beyond those of the session program
//! (`lines::limits`).
use lines::limits::ANSWER_MOST;
use text::limits::RECORD_MOST;

/// An operand's bytes, of two hexadecimal digits each.
pub const OPERAND_BYTES: usize = 4;

pub const OPERAND_LENGTH: usize = 2 * OPERAND_BYTES;

/// The longest answer: the session program's, and the fifth field with its comma.
pub const JOB_ANSWER_MOST: usize = ANSWER_MOST + 1 + RECORD_MOST;
