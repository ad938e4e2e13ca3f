//! Four jobs, one controller: the queues of the jobs stand beside the controller, and the store whose turn it is is
//! handed over to it.
#![tactic(auto)]

pub mod calls;
pub mod dispatcher;
pub mod queueing;
