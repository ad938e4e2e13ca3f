//! The lines of the wear program: what a line of a wear log says, the log that is held, and what is printed of its
//! view. What a function promises is named after it as in `text`.
#![tactic(auto)]

pub mod limits;
pub mod line;
pub mod log;
pub mod print;
