//! One record out of two passes: two GCR images with their marks to one.
ghost use Rattle.std.specs.Prelude.{◌≡◌, ◌+◌, ◌*◌, ◌≤◌, length, drop, OnOk};
ghost use Rattle.common.specs.Told.{refusal_number};
ghost use Rattle.blockettes.specs.Blockettes.{blockette_length};
ghost use Rattle.passes.specs.Passes.{merged_marks};
ghost use Rattle.records.specs.Count.{count_of};
ghost use Rattle.records.specs.Image.{image_length, mark_count};
ghost use Rattle.records.specs.Merge.{pass_of, pair_refusal, room_refusal, merge_refusal};
ghost use Rattle.records.specs.Merge.{merged_image, merge_image_into, merge_marks_into};

use crate::count::count_of;
use crate::layout::GCR;
use crate::whole::check_whole;
use common::copy;
use common::refusals::Refusal;
use passes::{Blockettes, put_merged_blockettes, put_merged_marks};

/// A pass: a GCR image and its marks.
#[derive(Clone, Copy)]
pub struct Pass<'a> {
    pub image: &'a [u8],
    pub marks: &'a [u8],
}

impl<'a> Pass<'a> {
    // Its blockettes, behind the count.
    fn blockettes(&self) -> Blockettes<'a>
        requires { length self.now.image.now ≡ 2 + blockette_length * length self.now.marks.now }
        ensures bytes { result.bytes.now ≡ drop 2 self.now.image.now }
        ensures marks { result.marks.now ≡ self.now.marks.now }
    {
        Blockettes {
            bytes: &self.image[2..],
            marks: self.marks,
        }
    }
}

// Two passes that are whole: refused where the counts differ, or where a blockette is good in both and unlike.
#[tactic(auto, using(crate::proofs::ImageLaws::marks_fill), unfolding(crate::specs::Merge::pair_refusal, common::specs::Pick::pick))]
fn check_pair(first: &Pass, second: &Pass) -> Result<(), Refusal>
    requires first_two { 2 ≤ length first.now.image.now }
    requires first_len { length first.now.image.now ≡ image_length (count_of first.now.image.now) 1 }
    requires first_marks_len { length first.now.marks.now ≡ mark_count (count_of first.now.image.now) 1 }
    requires second_two { 2 ≤ length second.now.image.now }
    requires second_len { length second.now.image.now ≡ image_length (count_of second.now.image.now) 1 }
    requires second_marks_len { length second.now.marks.now ≡ mark_count (count_of second.now.image.now) 1 }
    ensures answered { refusal_number result ≡ pair_refusal (pass_of first.now.image.now first.now.marks.now)
        (pass_of second.now.image.now second.now.marks.now) }
    ensures as_many { OnOk result (length second.now.marks.now ≡ length first.now.marks.now) }
{
    if count_of(first.image) != count_of(second.image) {
        return Err(Refusal::CountsDiffer);
    }
    if first.blockettes().clashes(&second.blockettes()) {
        return Err(Refusal::BlockettesUnlike);
    }
    Ok(())
}

// Refused for too little space: the merged image and its marks are as long as those of a pass.
#[tactic(auto, unfolding(common::specs::Pick::pick))]
fn check_room(first: &Pass, image: usize, marks: usize) -> Result<(), Refusal>
    ensures answered { refusal_number result ≡ room_refusal (pass_of first.now.image.now first.now.marks.now) image
        marks }
    ensures image_fits { OnOk result (length first.now.image.now ≤ image) }
    ensures marks_fit { OnOk result (length first.now.marks.now ≤ marks) }
{
    if (image < first.image.len()) | (marks < first.marks.len()) {
        return Err(Refusal::SpaceShort);
    }
    Ok(())
}

// Refused for a wrong length, a mark value, as a pair or for too little space, each over both passes before the next.
#[tactic(auto, using(crate::proofs::ImageLaws::marks_fill), unfolding(crate::specs::Merge::merge_refusal, crate::specs::Merge::either_refused, common::specs::Pick::pick))]
fn check_merge(first: &Pass, second: &Pass, image: usize, marks: usize) -> Result<(), Refusal>
    ensures answered { refusal_number result ≡ merge_refusal (pass_of first.now.image.now first.now.marks.now)
        (pass_of second.now.image.now second.now.marks.now)
        image marks }
    ensures first_len { OnOk result (length first.now.image.now ≡ 2 + blockette_length * length first.now.marks.now) }
    ensures second_len { OnOk result (length second.now.image.now
        ≡ 2 + blockette_length * length second.now.marks.now) }
    ensures as_many { OnOk result (length second.now.marks.now ≡ length first.now.marks.now) }
    ensures image_fits { OnOk result (length first.now.image.now ≤ image) }
    ensures marks_fit { OnOk result (length first.now.marks.now ≤ marks) }
{
    let one = check_whole(first.image, first.marks, GCR);
    let other = check_whole(second.image, second.marks, GCR);
    if (one == Err(Refusal::WrongLength)) | (other == Err(Refusal::WrongLength)) {
        return Err(Refusal::WrongLength);
    }
    one?;
    other?;
    check_pair(first, second)?;
    check_room(first, image, marks)
}

// The merged image and its marks, which fill their spaces. The first pass is copied whole, and the blockettes of the
// second put over it.
#[tactic(auto, unfolding(crate::specs::Merge::merged_image, passes::specs::Passes::merged_marks))]
fn put_merged_image(first: &Pass, second: &Pass, image: &mut [u8], marks: &mut [u8])
    requires first_len { length first.now.image.now ≡ 2 + blockette_length * length first.now.marks.now }
    requires second_len { length second.now.image.now ≡ 2 + blockette_length * length second.now.marks.now }
    requires as_many { length second.now.marks.now ≡ length first.now.marks.now }
    requires image_len { length image.old ≡ length first.now.image.now }
    requires marks_len { length marks.old ≡ length first.now.marks.now }
    ensures image_put { image.new ≡ merged_image
        (pass_of first.now.image.now first.now.marks.now)
        (pass_of second.now.image.now second.now.marks.now) }
    ensures marks_put { marks.new ≡ merged_marks first.now.marks.now
        second.now.marks.now }
{
    copy(first.image, image);
    put_merged_blockettes(first.marks, &second.blockettes(), &mut image[2..]);
    put_merged_marks(first.marks, second.marks, marks);
}

/// Two GCR images and their marks to one, at the start of their spaces.
#[tactic(auto, using(common::proofs::RefusalLaws::refused_not_done), unfolding(crate::specs::Merge::merge_image_into, crate::specs::Merge::merge_marks_into, common::specs::Space::overwrite, common::specs::Pick::pick))]
pub fn merge(first: &Pass, second: &Pass, image: &mut [u8], marks: &mut [u8]) -> Result<(), Refusal>
    ensures answered { refusal_number result ≡ merge_refusal (pass_of first.now.image.now first.now.marks.now)
        (pass_of second.now.image.now second.now.marks.now)
        (length image.old) (length marks.old) }
    ensures image_written { image.new ≡ merge_image_into
        (pass_of first.now.image.now first.now.marks.now)
        (pass_of second.now.image.now second.now.marks.now)
        image.old (length marks.old) }
    ensures marks_written { marks.new ≡ merge_marks_into
        (pass_of first.now.image.now first.now.marks.now)
        (pass_of second.now.image.now second.now.marks.now)
        (length image.old) marks.old }
{
    check_merge(first, second, image.len(), marks.len())?;
    put_merged_image(
        first,
        second,
        &mut image[..first.image.len()],
        &mut marks[..first.marks.len()],
    );
    Ok(())
}
