//! The link owns the controller's state and its phases, reset and damage, the strings from and to the host, completion
//! and loads. It knows nothing of what a store asks for, and refuses nothing.
#![tactic(auto)]

pub mod body;
pub mod bytes;
pub mod collecting;
pub mod completion;
pub mod damaged;
pub mod frames;
pub mod loads;
pub mod sending;
pub mod state;
