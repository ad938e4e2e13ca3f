//! Records as they lie on tape: the layout of an image, the builder, the test of an image and its marks, that of its
//! check blockettes, and the restorer. It knows nothing of the controller.
#![tactic(auto)]

pub mod build;
pub mod count;
pub mod interface;
pub mod layout;
pub mod merge;
pub mod place;
pub mod restore;
pub mod verify;
pub mod whole;
