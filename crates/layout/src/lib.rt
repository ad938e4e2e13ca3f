//! The layout of a dispatcher's state, and of an answer, as bytes. It knows nothing of the calls.
#![tactic(auto)]

pub mod answers;
pub mod places;
pub mod reading;
pub mod writing;
