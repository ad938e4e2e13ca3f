//! The moving view of a cartridge: how errors gather along a run of result records. `view::moving_view` looks at a lent
//! slice of them.
#![tactic(auto)]

pub mod counts;
pub mod limits;
pub mod view;
pub mod window;
