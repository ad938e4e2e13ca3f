//! The test of a whole image and its marks as they are handed in.
ghost use Rattle.std.specs.Prelude.{◌≡◌, ◌≤◌, ◌⊎◌, length, OnOk, IfErr};
ghost use Rattle.common.specs.Told.{refusal_number};
ghost use Rattle.common.specs.declared.refusals.Refusal.TheVariants.{WrongLength, MarkValue};
ghost use Rattle.records.specs.Count.{count_of};
ghost use Rattle.records.specs.Image.{image_length, mark_count};
ghost use Rattle.records.specs.Whole.{layout_refusal, whole_refusal};

use crate::count::count_of;
use crate::layout::{image_length, mark_count};
use common::refusals::Refusal;
use marks::legal_marks;

/// An image with this count, and its marks: refused for a wrong length or a mark value.
#[tactic(auto, unfolding(crate::specs::Whole::layout_refusal, common::specs::Pick::pick))]
pub fn check_layout(image: &[u8], marks: &[u8], count: u16, density: u8) -> Result<(), Refusal>
    ensures answered { refusal_number result ≡ layout_refusal image.now marks.now count density }
    ensures refused { IfErr result (λ refusal. (refusal ≡ WrongLength) ⊎ (refusal ≡ MarkValue)) }
    ensures long { OnOk result (length image.now ≡ image_length count density) }
    ensures marked { OnOk result (length marks.now ≡ mark_count count density) }
{
    if image.len() != image_length(count, density) {
        return Err(Refusal::WrongLength);
    }
    if marks.len() != mark_count(count, density) {
        return Err(Refusal::WrongLength);
    }
    if !legal_marks(marks) {
        return Err(Refusal::MarkValue);
    }
    Ok(())
}

/// A whole image, with the count that it says.
#[tactic(auto, unfolding(crate::specs::Whole::whole_refusal, common::specs::Pick::pick))]
pub fn check_whole(image: &[u8], marks: &[u8], density: u8) -> Result<(), Refusal>
    ensures answered { refusal_number result ≡ whole_refusal image.now marks.now density }
    ensures refused { IfErr result (λ refusal. (refusal ≡ WrongLength) ⊎ (refusal ≡ MarkValue)) }
    ensures two { OnOk result (2 ≤ length image.now) }
    ensures long { OnOk result (length image.now ≡ image_length (count_of image.now) density) }
    ensures marked { OnOk result (length marks.now ≡ mark_count (count_of image.now) density) }
{
    if image.len() < 2 {
        return Err(Refusal::WrongLength);
    }
    check_layout(image, marks, count_of(image), density)
}
