//! What the other crates have in common: the refusals, four of a kind, bytes copied and bytes filled with zeros.
#![tactic(auto)]

pub mod four;
pub mod refusals;

ghost use Rattle.std.specs.Prelude.{◌≡◌, ◌≤◌, length};
ghost use Rattle.common.specs.Space.{filled};

/// Gives bytes to a space of their length. Of `copy_from_slice` the compiler may make a `memmove`, which archives for C
/// would then need from outside; of this a `memcpy`, or moves of its own.
pub fn copy(bytes: &[u8], space: &mut [u8])
    requires { length space.old ≡ length bytes.now }
    ensures { space.new ≡ bytes.now }
{
    for (at, byte) in space.iter_mut().enumerate() {
        *byte = bytes[at];
    }
}

/// Gives bytes and fills the rest of the space with zeros.
#[tactic(auto, unfolding(crate::specs::Space::filled))]
pub fn put_filled(bytes: &[u8], space: &mut [u8])
    requires { length bytes.now ≤ length space.old }
    ensures { space.new ≡ filled bytes.now (length space.old) }
{
    let (front, rest) = space.split_at_mut(bytes.len());
    copy(bytes, front);
    rest.fill(0);
}
