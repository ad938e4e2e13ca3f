//! The lines of the contest program: what a question says, and what is printed for it. What a function promises is
//! named after it as in `text`.
#![tactic(auto)]

pub mod line;
pub mod print;
