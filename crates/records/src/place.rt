//! The place of the byte that came with bad parity, counted from 0 over the bytes handed in.
ghost use Rattle.std.specs.Prelude.{◌≡◌, ◌≤◌};
ghost use Rattle.records.specs.Place.{is_place, as_came};

/// None: behind the last byte that a store can need.
pub const NO_PLACE: usize = 65791;

/// Whether it is in the bytes handed in, or none.
#[tactic(auto, unfolding(crate::specs::Place::is_place))]
pub fn is_place(handed: usize, place: usize) -> bool
    ensures { result ≡ is_place handed place }
{
    (place < handed) | (place == NO_PLACE)
}

/// How many of the bytes handed in are written as they came.
#[tactic(auto, unfolding(crate::specs::Place::as_came, common::specs::Pick::pick))]
pub fn as_came(handed: usize, place: usize) -> usize
    ensures counted { result ≡ as_came handed place }
    ensures bounded { result ≤ handed }
{
    if place < handed { place + 1 } else { handed }
}
