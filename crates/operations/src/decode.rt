//! What a store asks for.
ghost use Rattle.std.specs.Prelude.{◌≡◌};
ghost use Rattle.operations.specs.Decode.{control_of, read_of, decode_of, in_density};

use crate::codes::{ILLEGAL_STORE, ILLEGAL_TRACK};
use crate::operation::Operation;
use status::drives::{GCR, MFM};

/// A reset, a code that ends the store, a setting of the selected drive or of the controller, or an operation.
#[derive(Clone, Copy)]
pub enum Decoded {
    Reset,
    Code(u8),
    Track(u8),
    Enable(bool),
    Guard(bool),
    Density(u8),
    Operate(Operation),
}

// By the control value.
#[tactic(auto, unfolding(crate::specs::Decode::control_of, common::specs::Pick::pick))]
fn control_of(value: u8) -> Decoded
    ensures { result ≡ control_of value }
{
    match value {
        0x00..=0x03 => Decoded::Track(value),
        0x04..=0x07 => Decoded::Code(ILLEGAL_TRACK),
        0x08 => Decoded::Enable(false),
        0x09 => Decoded::Enable(true),
        0x0A => Decoded::Guard(false),
        0x0B => Decoded::Guard(true),
        0x0C => Decoded::Density(MFM),
        0x0D => Decoded::Density(GCR),
        0x10 => Decoded::Operate(Operation::Rewind),
        0x11 => Decoded::Operate(Operation::FastForward),
        0x20 => Decoded::Operate(Operation::SkipForward),
        0x21 => Decoded::Operate(Operation::SkipReverse),
        0x22 => Decoded::Operate(Operation::SearchForward),
        0x23 => Decoded::Operate(Operation::SearchReverse),
        0x24 => Decoded::Operate(Operation::WriteMark),
        _ => Decoded::Code(ILLEGAL_STORE),
    }
}

// A store to operation 4, by its first operand byte.
#[tactic(auto, unfolding(crate::specs::Decode::read_of, common::specs::Pick::pick))]
fn read_of(first: u8) -> Decoded
    ensures { result ≡ read_of first }
{
    match first {
        0x00 => Decoded::Operate(Operation::Read),
        0x40 => Decoded::Operate(Operation::CheckBytes),
        0x80 => Decoded::Operate(Operation::SuppliedCount),
        _ => Decoded::Code(ILLEGAL_STORE),
    }
}

/// By the operation, address bits 1-3, and the operand's first and last byte.
#[tactic(auto, unfolding(crate::specs::Decode::decode_of, common::specs::Pick::pick))]
pub fn decode_of(operation: u8, first: u8, last: u8) -> Decoded
    ensures { result ≡ decode_of operation first last }
{
    match operation {
        0 => Decoded::Reset,
        3 => control_of(last),
        4 => read_of(first),
        5 => Decoded::Operate(Operation::Write),
        6 => Decoded::Operate(Operation::Erase),
        _ => Decoded::Code(ILLEGAL_STORE),
    }
}

/// The same for a drive of this density: a supplied count needs GCR.
#[tactic(auto, unfolding(crate::specs::Decode::in_density, common::specs::Pick::pick))]
pub fn in_density(density: u8, asked: Decoded) -> Decoded
    ensures { result ≡ in_density density asked }
{
    let Decoded::Operate(operation) = asked else {
        return asked;
    };
    if operation.supplies_count() & (density == MFM) {
        return Decoded::Code(ILLEGAL_STORE);
    }
    asked
}
