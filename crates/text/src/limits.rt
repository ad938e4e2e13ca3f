//! Limits of fields and of printed numbers.

/// A byte, written in decimal.
pub const BYTE_LIMIT: usize = 255;

/// Above every limit of a field, so that a number which is longer can stay here, and small enough that ten times as
/// much does not wrap.
pub const FIELD_CAP: usize = 4294967296;

/// Ten digits hold each number of 32 bits.
pub const DECIMAL_MOST: usize = 10;

/// The number of a refusal has at most two digits.
pub const REFUSAL_MOST: usize = 2;

/// The longest record, CC:M:N.
pub const RECORD_MOST: usize = 2 + 1 + DECIMAL_MOST + 1 + DECIMAL_MOST;
