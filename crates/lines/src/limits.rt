//! The limits of a line and of the text that is printed for it. Document 01: "Host bytes and space go to 16,384, an
//! image to 16,898 bytes, marks to 66; beyond that a line is unreadable. The program's image space is 16,898 bytes".
//! They are the session program's own, and do not follow the most bytes of a record.
use text::limits::REFUSAL_MOST;

/// The most host bytes of a data line, and the most space that a result is lent.
pub const HOST_LIMIT: usize = 16384;

// Bytes of a blockette.
const BLOCKETTE: usize = 256;

/// Both check blockettes: "6 check store not 512".
pub const CHECK_STORE: usize = 2 * BLOCKETTE;

/// The image of so many bytes: its count, its data blockettes, and its check blockettes.
pub const IMAGE_LIMIT: usize = 2 + HOST_LIMIT + CHECK_STORE;

/// A mark for each blockette of such an image.
pub const MARKS_LIMIT: usize = HOST_LIMIT / BLOCKETTE + 2;

/// "mark (0 or 1)"
pub const FLAG_LIMIT: usize = 1;

// The longest text of an action's bytes: six bytes of two digits.
const ACTION_MOST: usize = 2 * 6;

// The longest head of an answer: a refusal of two digits, the action's letter and its bytes, each with a comma.
const HEAD_MOST: usize = REFUSAL_MOST + 1 + 2 + ACTION_MOST + 1;

// The longest answer that gives no bytes: a head and #0A.
const REPLY_MOST: usize = HEAD_MOST + 1;

/// The longest answer: the bytes of a whole image stand before #0A, with two digits each.
pub const ANSWER_MOST: usize = REPLY_MOST + 2 * IMAGE_LIMIT;
