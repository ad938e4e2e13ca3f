//! The controller: the state, what stores ask for, and the calls.
#![tactic(auto)]

pub mod controller;
pub mod link_calls;
pub mod offers;
pub mod stores;
pub mod transfer_calls;
