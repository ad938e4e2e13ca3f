//! The functions for C. A slice is a pointer and a length.
ghost use Rattle.std.specs.Prelude.{◌≡◌, ◌<◌, ◌≤◌, length};
ghost use Rattle.records.specs.Count.{limit};
ghost use Rattle.records.specs.Build.{build_refusal, build_into};
ghost use Rattle.records.specs.Restore.{restore_refusal, restore_into};
ghost use Rattle.records.specs.Merge.{pass_of, merge_refusal, merge_image_into, merge_marks_into};
ghost use Rattle.records.specs.Verify.{verify};
ghost use Rattle.records.specs.Interface.{image_length_within, mark_count_within, image_count};
ghost use Rattle.records.specs.Interface.{defect_report, scan_report, scan_refusal, scan_into};
ghost use Rattle.marks.specs.Scan.{told_defect};
ghost use Rattle.common.specs.Told.{refusal_number};

use crate::build::build;
use crate::count::{LIMIT, count_of};
use crate::layout::{image_length, mark_count};
use crate::merge::{Pass, merge};
use crate::restore::restore;
use crate::verify::verify;
use common::refusals::{Refusal, refusal_number};
use marks::{Defect, findings_of};

// What is no count: one more than 16 bits hold.
const NO_COUNT: usize = 65536;

// The bytes of a report.
const REPORT_LENGTH: usize = 9;

/// Bytes to an image.
#[unsafe(no_mangle)]
pub extern "C" fn ctc_build(bytes: &[u8], density: u8, place: usize, image: &mut [u8]) -> u32
    ensures answered { result ≡ build_refusal (length bytes.now) density place
        (length image.old) }
    ensures written { image.new ≡ build_into bytes.now density place image.old }
{
    refusal_number(&build(bytes, density, place, image))
}

/// GCR image and marks to bytes.
#[unsafe(no_mangle)]
pub extern "C" fn ctc_restore(image: &[u8], marks: &[u8], out: &mut [u8]) -> u32
    ensures answered { result ≡ restore_refusal image.now marks.now
        (length out.old) }
    ensures written { out.new ≡ restore_into image.now marks.now
        out.old }
{
    refusal_number(&restore(image, marks, out))
}

/// Two GCR images and their marks to one.
#[unsafe(no_mangle)]
pub extern "C" fn ctc_merge(
    first: &[u8],
    first_marks: &[u8],
    second: &[u8],
    second_marks: &[u8],
    image: &mut [u8],
    marks: &mut [u8],
) -> u32
    ensures answered { result ≡ merge_refusal (pass_of first.now first_marks.now)
        (pass_of second.now second_marks.now)
        (length image.old) (length marks.old) }
    ensures image_written { image.new ≡ merge_image_into
        (pass_of first.now first_marks.now)
        (pass_of second.now second_marks.now)
        image.old (length marks.old) }
    ensures marks_written { marks.new ≡ merge_marks_into
        (pass_of first.now first_marks.now)
        (pass_of second.now second_marks.now)
        (length image.old) marks.old }
{
    let first = Pass {
        image: first,
        marks: first_marks,
    };
    let second = Pass {
        image: second,
        marks: second_marks,
    };
    refusal_number(&merge(&first, &second, image, marks))
}

/// Whether the check blockettes of a GCR image fit its data.
#[unsafe(no_mangle)]
pub extern "C" fn ctc_verify(image: &[u8]) -> u32
    ensures { result ≡ verify image.now }
{
    match verify(image) {
        Ok(fit) => u32::from(fit),
        Err(refusal) => u32::from(refusal),
    }
}

// What a count tells, 0 where no record has it.
#[tactic(auto, unfolding(crate::specs::Count::limit))]
fn within_limit<F: Fn(u16) -> usize>(count: usize, told: F) -> usize
    requires { F.IsAlwaysCallable told }
    ensures above { limit < count → result ≡ 0 }
    ensures within { count ≤ limit → F.post told count result }
{
    if LIMIT < count {
        return 0;
    }
    told(count as u16)
}

/// The length of an image, 0 where no image has the count.
#[unsafe(no_mangle)]
#[tactic(auto, unfolding(crate::specs::Interface::image_length_within, common::specs::Pick::pick, crate::specs::Count::limit))]
pub extern "C" fn ctc_image_length(count: usize, density: u8) -> usize
    ensures { result ≡ image_length_within count density }
{
    within_limit(count, |count| image_length(count, density))
}

/// The number of its marks, 0 where no image has the count.
#[unsafe(no_mangle)]
#[tactic(auto, unfolding(crate::specs::Interface::mark_count_within, common::specs::Pick::pick, crate::specs::Count::limit))]
pub extern "C" fn ctc_mark_count(count: usize, density: u8) -> usize
    ensures { result ≡ mark_count_within count density }
{
    within_limit(count, |count| mark_count(count, density))
}

/// The count that an image says, and no count where two bytes are not there.
#[unsafe(no_mangle)]
#[tactic(auto, unfolding(crate::specs::Interface::image_count, common::specs::Pick::pick))]
pub extern "C" fn ctc_image_count(image: &[u8]) -> usize
    ensures { result ≡ image_count image.now }
{
    if image.len() < 2 {
        return NO_COUNT;
    }
    count_of(image) as usize
}

// What is told of an error, or zeros where there is none.
fn defect_report(defect: Option<Defect>) -> [u8; 3]
    ensures { result ≡ defect_report (told_defect defect) }
{
    match defect {
        Some(found) => [found.mark, found.kind as u8, found.number],
        None => [0; 3],
    }
}

// What the scan finds, as nine bytes.
#[tactic(auto, unfolding(crate::specs::Interface::scan_report))]
fn scan_report(marks: &[u8]) -> [u8; REPORT_LENGTH]
    ensures { result ≡ scan_report marks.now }
{
    let found = findings_of(marks);
    let odd = defect_report(found.odd);
    let even = defect_report(found.even);
    let stop = defect_report(found.stop);
    [
        odd[0], odd[1], odd[2], even[0], even[1], even[2], stop[0], stop[1], stop[2],
    ]
}

// The report at the start of a space.
#[tactic(auto, unfolding(crate::specs::Interface::scan_refusal, crate::specs::Interface::scan_into, common::specs::Space::overwrite, common::specs::Pick::pick))]
fn scan(marks: &[u8], report: &mut [u8]) -> Result<(), Refusal>
    ensures answered { refusal_number result ≡ scan_refusal (length report.old) }
    ensures written { report.new ≡ scan_into marks.now report.old }
{
    if report.len() < REPORT_LENGTH {
        return Err(Refusal::SpaceShort);
    }
    report[..REPORT_LENGTH].copy_from_slice(&scan_report(marks));
    Ok(())
}

/// The scan of the marks.
#[unsafe(no_mangle)]
pub extern "C" fn ctc_scan(marks: &[u8], report: &mut [u8]) -> u32
    ensures answered { result ≡ scan_refusal (length report.old) }
    ensures written { report.new ≡ scan_into marks.now report.old }
{
    refusal_number(&scan(marks, report))
}
