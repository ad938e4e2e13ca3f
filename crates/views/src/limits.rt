//! The limits of a moving view.

/// "a width of 1 to 64"
pub const WIDTH_LIMIT: usize = 64;

/// "Take up to 65,535 result records"
pub const RUN_LIMIT: usize = 65535;

/// "For each full stretch .. write three bytes"
pub const STRETCH_BYTES: usize = 3;
