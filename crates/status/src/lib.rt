//! What the controller keeps of its four drives, and its status words.
#![tactic(auto)]

pub mod drives;
pub mod words;
