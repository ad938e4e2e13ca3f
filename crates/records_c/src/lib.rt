#![tactic(auto)]

// The records for C: the functions of `records::interface` under their own names, each with its clauses. A slice is a
// pointer and a length.
ghost use Rattle.std.specs.Prelude.{◌≡◌, length};
ghost use Rattle.records.specs.Build.{build_refusal, build_into};
ghost use Rattle.records.specs.Restore.{restore_refusal, restore_into};
ghost use Rattle.records.specs.Merge.{pass_of, merge_refusal, merge_image_into, merge_marks_into};
ghost use Rattle.records.specs.Verify.{verify};
ghost use Rattle.records.specs.Interface.{image_length_within, mark_count_within, image_count, scan_refusal, scan_into};

use records::interface;

/// Bytes to an image.
#[unsafe(no_mangle)]
pub extern "C" fn ctc_build(bytes: &[u8], density: u8, place: usize, image: &mut [u8]) -> u32
    ensures answered { result ≡ build_refusal (length bytes.now) density place
        (length image.old) }
    ensures written { image.new ≡ build_into bytes.now density place image.old }
{
    interface::ctc_build(bytes, density, place, image)
}

/// GCR image and marks to bytes.
#[unsafe(no_mangle)]
pub extern "C" fn ctc_restore(image: &[u8], marks: &[u8], out: &mut [u8]) -> u32
    ensures answered { result ≡ restore_refusal image.now marks.now
        (length out.old) }
    ensures written { out.new ≡ restore_into image.now marks.now
        out.old }
{
    interface::ctc_restore(image, marks, out)
}

/// Two GCR images and their marks to one.
#[unsafe(no_mangle)]
pub extern "C" fn ctc_merge(
    first: &[u8],
    first_marks: &[u8],
    second: &[u8],
    second_marks: &[u8],
    image: &mut [u8],
    marks: &mut [u8],
) -> u32
    ensures answered { result ≡ merge_refusal (pass_of first.now first_marks.now)
        (pass_of second.now second_marks.now)
        (length image.old) (length marks.old) }
    ensures image_written { image.new ≡ merge_image_into
        (pass_of first.now first_marks.now)
        (pass_of second.now second_marks.now)
        image.old (length marks.old) }
    ensures marks_written { marks.new ≡ merge_marks_into
        (pass_of first.now first_marks.now)
        (pass_of second.now second_marks.now)
        (length image.old) marks.old }
{
    interface::ctc_merge(first, first_marks, second, second_marks, image, marks)
}

/// Whether the check blockettes of a GCR image fit its data.
#[unsafe(no_mangle)]
pub extern "C" fn ctc_verify(image: &[u8]) -> u32
    ensures { result ≡ verify image.now }
{
    interface::ctc_verify(image)
}

/// The length of an image, 0 where no image has the count.
#[unsafe(no_mangle)]
pub extern "C" fn ctc_image_length(count: usize, density: u8) -> usize
    ensures { result ≡ image_length_within count density }
{
    interface::ctc_image_length(count, density)
}

/// The number of its marks, 0 where no image has the count.
#[unsafe(no_mangle)]
pub extern "C" fn ctc_mark_count(count: usize, density: u8) -> usize
    ensures { result ≡ mark_count_within count density }
{
    interface::ctc_mark_count(count, density)
}

/// The count that an image says, and no count where two bytes are not there.
#[unsafe(no_mangle)]
pub extern "C" fn ctc_image_count(image: &[u8]) -> usize
    ensures { result ≡ image_count image.now }
{
    interface::ctc_image_count(image)
}

/// The scan of the marks.
#[unsafe(no_mangle)]
pub extern "C" fn ctc_scan(marks: &[u8], report: &mut [u8]) -> u32
    ensures answered { result ≡ scan_refusal (length report.old) }
    ensures written { report.new ≡ scan_into marks.now report.old }
{
    interface::ctc_scan(marks, report)
}
