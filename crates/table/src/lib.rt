//! The core's table of answers, each of them worked out from the papers' lists, and its text.
#![tactic(auto)]

pub mod print;
pub mod rules;
