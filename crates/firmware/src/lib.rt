//! The dispatcher for C: the state is bytes that the caller keeps, and each function is the dispatcher's own call on
//! the state that they hold.
#![tactic(auto)]

pub mod ending;
pub mod interface;
pub mod stored;
