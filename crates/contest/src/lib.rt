//! Driver against tape: whether a driver can force a number of good writes with a number of stores, and how it begins.
#![tactic(auto)]

pub mod contest;
pub mod interface;
