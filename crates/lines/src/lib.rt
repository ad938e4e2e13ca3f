//! The lines of the session program: what a line says, and what is printed for it. What a function promises is named
//! after it as in `text`.
#![tactic(auto)]

pub mod limits;
pub mod line;
pub mod play;
pub mod print;
