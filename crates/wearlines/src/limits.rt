//! The limits of a wear log's line, and of the text that is printed of its view.
use text::limits::DECIMAL_MOST;

/// A count has 32 bits.
pub const COUNT_LIMIT: usize = 4294967295;

/// The longest line that is printed: three numbers, each with its comma or #0A.
pub const TEXT_MOST: usize = 3 * DECIMAL_MOST + 3;
