//! The codes that the controller itself gives; the others come with a result. Their names are those of source
//! document 001.

/// a named drive above 3
pub const ILLEGAL_DRIVE: u8 = 0x01;

/// a store that asks for nothing there is, or supplies a count to an MFM drive
pub const ILLEGAL_STORE: u8 = 0x02;

/// a track above 3
pub const ILLEGAL_TRACK: u8 = 0x03;

/// the tape test is not passed
pub const ILLEGAL_MOTION: u8 = 0x04;

/// GO is not accepted
pub const NO_GO: u8 = 0x05;

/// the tape that moved is installed no more
pub const OFFLINE: u8 = 0x07;

/// no blockette has the number that the supplied count asks for: it is 0
pub const BLOCKETTE_NUMBER_WRONG: u8 = 0x13;

/// at most one bad blockette of each parity
pub const RECOVERABLE: u8 = 0x15;

/// two bad blockettes of one parity
pub const UNRECOVERABLE: u8 = 0x16;
