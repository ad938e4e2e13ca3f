//! The lines of the jobs program: the session program's, which `lines` reads and prints, two more, and a fifth field of
//! each answer. What a function promises is named after it as in `text`.
#![tactic(auto)]

pub mod limits;
pub mod line;
pub mod play;
pub mod print;
