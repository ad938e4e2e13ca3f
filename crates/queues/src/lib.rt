//! The queues of the four jobs: stores that wait for the controller, and whose turn it is.
#![tactic(auto)]

pub mod jobs;
pub mod queue;
