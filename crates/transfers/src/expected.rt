//! What a result brings, by its operation, code and mark flag, and the test of it.
ghost use Rattle.std.specs.Prelude.{◌≡◌};
ghost use Rattle.common.specs.Told.{refusal_number};
ghost use Rattle.transfers.specs.Expected.{whole_code, expected_whole, expected_supplied, expected_count, expected_of};
ghost use Rattle.transfers.specs.Expected.{unmarked_refusal, image_refusal};

use crate::verdict::TapeResult;
use common::refusals::Refusal;
use operations::operation::Operation;
use operations::store::Store;
use records::whole::{check_layout, check_whole};
use status::drives::{GCR, MFM};

/// What is to be handed in: a whole image of this density with its marks, a GCR image of a supplied count with its
/// marks, two count bytes and no marks, or neither.
#[derive(Clone, Copy)]
pub enum Expected {
    Whole(u8),
    Supplied(u16),
    Count,
    Nothing,
}

// The codes with which a read or a forward skip brings an image.
#[tactic(auto, unfolding(crate::specs::Expected::whole_code))]
fn whole_code(code: u8) -> bool
    ensures { result ≡ whole_code code }
{
    matches!(code, 0 | 0x10 | 0x11 | 0x12)
}

impl TapeResult<'_> {
    // What a read or a forward skip brings.
    #[tactic(auto, unfolding(crate::specs::Expected::expected_whole, common::specs::Pick::pick))]
    fn expected_whole(&self, density: u8) -> Expected
        ensures { result ≡ expected_whole density self.now.code self.now.mark }
    {
        if whole_code(self.code) & !self.mark {
            return Expected::Whole(density);
        }
        Expected::Nothing
    }

    // What a read with a supplied count brings.
    #[tactic(auto, unfolding(crate::specs::Expected::expected_supplied, common::specs::Pick::pick))]
    fn expected_supplied(&self, count: u16) -> Expected
        ensures { result ≡ expected_supplied count self.now.code }
    {
        if (self.code == 0) & (count != 0) {
            return Expected::Supplied(count);
        }
        Expected::Nothing
    }

    // What a reverse skip brings.
    #[tactic(auto, unfolding(common::specs::Pick::pick))]
    fn expected_count(&self, density: u8) -> Expected
        ensures { result ≡ expected_count density self.now.code self.now.mark }
    {
        if (density != MFM) & ((self.code == 0) & !self.mark) {
            return Expected::Count;
        }
        Expected::Nothing
    }

    /// What an operation brings.
    #[tactic(auto, unfolding(crate::specs::Expected::expected_of, common::specs::Pick::pick))]
    pub fn expected_of(&self, operation: Operation, store: Store, density: u8) -> Expected
        ensures { result ≡ expected_of operation store density self.now.code self.now.mark }
    {
        if operation.brings_record() {
            return self.expected_whole(density);
        }
        if operation.supplies_count() {
            return self.expected_supplied(store.held_count());
        }
        if operation == Operation::SkipReverse {
            return self.expected_count(density);
        }
        Expected::Nothing
    }

    // An image of this length and no marks.
    #[tactic(auto, unfolding(crate::specs::Expected::unmarked_refusal, common::specs::Pick::pick))]
    fn check_unmarked(&self, length: usize) -> Result<(), Refusal>
        ensures { refusal_number result ≡ unmarked_refusal self.now.image.now self.now.marks.now length }
    {
        if self.image.len() != length || !self.marks.is_empty() {
            return Err(Refusal::WrongLength);
        }
        Ok(())
    }

    /// What is expected: refused for a wrong length or a mark value.
    #[tactic(auto, unfolding(crate::specs::Expected::image_refusal))]
    pub fn check_image(&self, expected: Expected) -> Result<(), Refusal>
        ensures { refusal_number result ≡ image_refusal self.now.image.now self.now.marks.now expected }
    {
        match expected {
            Expected::Whole(density) => check_whole(self.image, self.marks, density),
            Expected::Supplied(count) => check_layout(self.image, self.marks, count, GCR),
            Expected::Count => self.check_unmarked(2),
            Expected::Nothing => self.check_unmarked(0),
        }
    }
}
