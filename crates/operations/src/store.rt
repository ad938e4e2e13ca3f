//! A store: which drive it names, what it asks for, and the count that it holds.
ghost use Rattle.std.specs.Prelude.{◌≡◌};
ghost use Rattle.operations.specs.Store.{asks_interrupt, names_drive, named_drive, names_unknown, selected_by};
ghost use Rattle.operations.specs.Store.{asked_for, asked_in, held_count, supplied_count};

use crate::decode::{Decoded, decode_of, in_density};
use crate::operation::Operation;

/// The number of drives.
pub const DRIVES: u8 = 4;

/// Its address and its four operand bytes.
#[derive(Clone, Copy, Default)]
pub struct Store {
    pub address: u8,
    pub first: u8,
    pub second: u8,
    pub third: u8,
    pub fourth: u8,
}

impl Store {
    /// Whether it asks an interrupt.
    #[tactic(auto, unfolding(crate::specs::Store::asks_interrupt))]
    pub fn asks_interrupt(self) -> bool
        ensures { result ≡ asks_interrupt self }
    {
        128 <= self.address
    }

    /// Whether it names a drive.
    #[tactic(auto, unfolding(crate::specs::Store::names_drive))]
    pub fn names_drive(self) -> bool
        ensures { result ≡ names_drive self }
    {
        self.address / 8 % 2 == 1
    }

    /// The drive that it names.
    #[tactic(auto, unfolding(crate::specs::Store::named_drive))]
    pub fn named_drive(self) -> u8
        ensures { result ≡ named_drive self }
    {
        self.address % 8
    }

    /// Whether it names a drive above 3.
    #[tactic(auto, unfolding(crate::specs::Store::names_unknown))]
    pub fn names_unknown(self) -> bool
        ensures { result ≡ names_unknown self }
    {
        self.names_drive() & (DRIVES <= self.named_drive())
    }

    /// The drive that it is for: the one that it names, or the one selected before.
    #[tactic(auto, unfolding(crate::specs::Store::selected_by, common::specs::Pick::pick))]
    pub fn selected_by(self, selected: u8) -> u8
        ensures { result ≡ selected_by self selected }
    {
        let named = self.named_drive();
        if self.names_drive() { named } else { selected }
    }

    /// What it asks for.
    #[tactic(auto, unfolding(crate::specs::Store::asked_for))]
    pub fn asked_for(self) -> Decoded
        ensures { result ≡ asked_for self }
    {
        decode_of(self.address / 16 % 8, self.first, self.fourth)
    }

    /// What it asks for of a drive of this density.
    pub fn asked_in(self, density: u8) -> Decoded
        ensures { result ≡ asked_in self density }
    {
        in_density(density, self.asked_for())
    }

    /// The count of a write, or the supplied one.
    #[tactic(auto, unfolding(crate::specs::Store::held_count))]
    pub fn held_count(self) -> u16
        ensures { result ≡ held_count self }
    {
        u16::from_be_bytes([self.third, self.fourth])
    }
}

impl Operation {
    /// The count that is supplied for an operation, 0 where none is.
    #[tactic(auto, unfolding(crate::specs::Store::supplied_count, common::specs::Pick::pick))]
    pub fn supplied_count(self, store: Store) -> u16
        ensures { result ≡ supplied_count self store }
    {
        if self.supplies_count() {
            return store.held_count();
        }
        0
    }
}
