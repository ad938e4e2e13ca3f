//! What a data call and a result come to, for the drive that they concern: the image, the final code, the bits and
//! words of status, the check store, the gap, and the bytes that are delivered. It knows nothing of the link and of the
//! state.
#![tactic(auto)]

pub mod after;
pub mod data;
pub mod delivery;
pub mod expected;
pub mod refusal;
pub mod results;
pub mod settle;
pub mod verdict;
