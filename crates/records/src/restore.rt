//! The restorer.
ghost use Rattle.std.specs.Prelude.{◌≡◌, ◌+◌, ◌≤◌, length, OnOk};
ghost use Rattle.common.specs.Told.{refusal_number};
ghost use Rattle.records.specs.Count.{limit, count_of};
ghost use Rattle.marks.specs.Scan.{scan_marks};
ghost use Rattle.records.specs.Image.{blockette_count};
ghost use Rattle.records.specs.Restore.{mend_at, restored_of, restore_refusal, restore_into};

use crate::count::count_of;
use crate::layout::{GCR, blockette_count};
use crate::whole::check_whole;
use blockettes::{BLOCKETTE_LENGTH, put_others};
use common::copy;
use common::refusals::Refusal;
use marks::scan_marks;

// Restores the blockette at a place of the bytes of a record, from the blockettes of data and of check, where it is one
// of data.
#[tactic(auto, unfolding(crate::specs::Restore::mend_at, crate::specs::Image::blockette_count, crate::specs::Count::limit, common::specs::Pick::pick))]
fn mend_at(blockettes: &[u8], place: usize, bytes: &mut [u8])
    requires { length bytes.old ≤ limit }
    ensures { bytes.new ≡ mend_at blockettes.now (blockette_count (length bytes.old)) place bytes.old }
{
    let n = blockette_count(bytes.len() as u16);
    if place < n {
        let start = BLOCKETTE_LENGTH * place;
        let end = bytes.len().min(start + BLOCKETTE_LENGTH);
        put_others(&mut bytes[start..end], blockettes, n + 2, place);
    }
}

// The bytes of a record from its blockettes, with two places restored.
fn put_restored(blockettes: &[u8], odd: usize, even: usize, space: &mut [u8])
    requires space_bound { length space.old ≤ limit }
    requires space_in_bounds { length space.old ≤ length blockettes.now }
    ensures { space.new ≡ restored_of blockettes.now (blockette_count (length space.old)) odd even
        (length space.old) }
{
    copy(&blockettes[..space.len()], space);
    mend_at(blockettes, odd, space);
    mend_at(blockettes, even, space);
}

// Refused as a whole image is, for too little space, or for two bad blockettes of one parity; `stop` is where the scan
// of the marks stopped.
#[tactic(auto, using(crate::proofs::ImageLaws::image_holds), unfolding(crate::specs::Restore::restore_refusal, common::specs::Pick::pick))]
fn check_restore(image: &[u8], marks: &[u8], stop: usize, space: usize) -> Result<(), Refusal>
    requires { stop ≡ (scan_marks marks.now).stop }
    ensures answered { refusal_number result ≡ restore_refusal image.now marks.now space }
    ensures holds { OnOk result (2 + count_of image.now ≤ length image.now) }
    ensures fits { OnOk result (count_of image.now ≤ space) }
{
    check_whole(image, marks, GCR)?;
    if space < count_of(image) as usize {
        return Err(Refusal::SpaceShort);
    }
    if stop < marks.len() {
        return Err(Refusal::Unrestorable);
    }
    Ok(())
}

/// GCR image and marks to the bytes of the record, at the start of the space.
#[tactic(auto, using(common::proofs::RefusalLaws::refused_not_done), unfolding(crate::specs::Restore::restore_into, crate::specs::Restore::restored_bytes, crate::specs::Count::limit, common::specs::Space::overwrite, common::specs::Pick::pick))]
pub fn restore(image: &[u8], marks: &[u8], space: &mut [u8]) -> Result<(), Refusal>
    ensures answered { refusal_number result ≡ restore_refusal image.now marks.now
        (length space.old) }
    ensures written { space.new ≡ restore_into image.now marks.now
        space.old }
{
    let errors = scan_marks(marks);
    check_restore(image, marks, errors.stop, space.len())?;
    let length = count_of(image) as usize;
    put_restored(&image[2..], errors.odd, errors.even, &mut space[..length]);
    Ok(())
}
