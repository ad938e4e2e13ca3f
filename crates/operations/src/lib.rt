//! The twelve operations that a store can ask for: how a store is decoded, which drive may carry it out, which codes
//! its result may report, and what it leaves. It knows nothing of the link and of the state.
#![tactic(auto)]

pub mod after;
pub mod answers;
pub mod codes;
pub mod course;
pub mod decode;
pub mod operation;
pub mod store;
pub mod test;
