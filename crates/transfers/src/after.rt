//! What a data call or a result finds and leaves of the status words and of its drive.
use status::words::{Outcome, Word};

/// What a store sets of primary and of secondary, and the other two words.
#[derive(Clone, Copy, Default)]
pub struct Words {
    pub outcome: Outcome,
    pub tertiary: Word,
    pub quintary: Word,
}

/// What a data call leaves: the words, and how many bytes its image has.
#[derive(Clone, Copy)]
pub struct Written {
    pub words: Words,
    pub bytes: usize,
}

/// What a result leaves: the words, the drive's gap, and how many bytes were delivered.
#[derive(Clone, Copy)]
pub struct After {
    pub words: Words,
    pub gap: u8,
    pub bytes: usize,
}
