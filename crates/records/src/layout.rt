//! How many blockettes, bytes and marks a record has.
ghost use Rattle.std.specs.Prelude.{◌≡◌, ◌≤◌};
ghost use Rattle.records.specs.Image.{blockette_count, has_blockettes, image_length, mark_count};

use blockettes::BLOCKETTE_LENGTH;

/// The density of GCR: any but 0 is.
pub const GCR: u8 = 1;

/// The blockettes of data.
#[tactic(auto, unfolding(crate::specs::Image::blockette_count))]
pub fn blockette_count(count: u16) -> usize
    ensures counted { result ≡ blockette_count count }
    ensures few { result ≤ 256 }
{
    (count as usize).div_ceil(BLOCKETTE_LENGTH)
}

/// Whether there are any: in GCR, where the count is not 0.
#[tactic(auto, unfolding(crate::specs::Image::has_blockettes))]
pub fn has_blockettes(count: u16, density: u8) -> bool
    ensures { result ≡ has_blockettes count density }
{
    (density != 0) & (count != 0)
}

/// The length of an image.
#[tactic(auto, unfolding(crate::specs::Image::image_length, common::specs::Pick::pick))]
pub fn image_length(count: u16, density: u8) -> usize
    ensures { result ≡ image_length count density }
{
    if has_blockettes(count, density) {
        return 2 + BLOCKETTE_LENGTH * (blockette_count(count) + 2);
    }
    2 + count as usize
}

/// The number of its marks.
#[tactic(auto, unfolding(crate::specs::Image::mark_count, common::specs::Pick::pick))]
pub fn mark_count(count: u16, density: u8) -> usize
    ensures { result ≡ mark_count count density }
{
    if has_blockettes(count, density) {
        return blockette_count(count) + 2;
    }
    0
}
