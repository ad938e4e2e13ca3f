//! What a result leaves in lent space: the bytes that are delivered, and the check store.
ghost use Rattle.std.specs.Prelude.{◌≡◌, ◌+◌, ◌≤◌, true, length, is_some};
ghost use Rattle.records.specs.Image.{image_length};
ghost use Rattle.operations.specs.Operation.{is_read};
ghost use Rattle.marks.specs.Scan.{told_findings};
ghost use Rattle.transfers.specs.Data.{check_store};
ghost use Rattle.transfers.specs.Results.{read_count, read_bytes, delivered_bytes, bytes_read, fitting, fitting_into};
ghost use Rattle.transfers.specs.Results.{count_in, told_verdict, result_check};

use crate::data::put_check_bytes;
use crate::verdict::Verdict;
use blockettes::BLOCKETTE_LENGTH;
use common::copy;
use marks::Findings;
use operations::operation::Operation;
use records::layout::blockette_count;

// How many bytes of its image a read delivers.
#[tactic(auto, using(records::proofs::ImageLaws::blockettes_few), unfolding(crate::specs::Results::read_count, common::specs::Pick::pick, marks::specs::Scan::is_found))]
fn read_count(count: u16, found: Findings) -> usize
    ensures value { result ≡ read_count count (told_findings found) }
    ensures upper_bound { result ≤ count }
{
    if found.stop.is_some() {
        let before = found.place.min(blockette_count(count));
        return (count as usize).min(BLOCKETTE_LENGTH * before);
    }
    count as usize
}

// The bytes of its image that a read delivers.
#[tactic(auto, unfolding(crate::specs::Results::read_bytes))]
fn read_bytes(image: &[u8], count: u16, found: Findings) -> &[u8]
    requires { 2 + count ≤ length image.now }
    ensures { result.now ≡ read_bytes image.now count (told_findings found) }
{
    let end = 2 + read_count(count, found);
    &image[2..end]
}

impl Verdict {
    /// What is to be delivered, as the image or the check store has it.
    #[tactic(auto, unfolding(crate::specs::Results::delivered_bytes, common::specs::Pick::pick))]
    pub fn delivered_bytes<'a>(
        self,
        operation: Operation,
        image: &'a [u8],
        check: &'a [u8],
    ) -> &'a [u8]
        requires { is_read operation ≡ true → is_some self.used ≡ true → 2 + count_in self.used ≤ length image.now }
        ensures { result.now ≡ delivered_bytes (told_verdict self) operation image.now check.now }
    {
        if operation.is_read() {
            return match self.used {
                Some(count) => read_bytes(image, count, self.found),
                None => &[],
            };
        }
        if operation == Operation::CheckBytes {
            return check;
        }
        &[]
    }

    /// The check store after a result.
    #[tactic(auto, unfolding(crate::specs::Results::result_check, common::specs::Pick::pick))]
    pub fn put_result_check(self, image: &[u8], check: &mut [u8])
        requires check_len { length check.old ≡ check_store }
        requires image_len { self.renews ≡ true → is_some self.used ≡ true
            → length image.now ≡ image_length (count_in self.used) 1 }
        ensures { check.new ≡ result_check (told_verdict self) image.now check.old }
    {
        if self.renews {
            match self.used {
                Some(count) => put_check_bytes(image, count, check),
                None => check.fill(0),
            }
        }
    }
}

// As many bytes as fit: how many they are.
#[tactic(auto, using(crate::proofs::ResultLaws::fitting_part, crate::proofs::ResultLaws::fitting_length), unfolding(common::specs::Space::overwrite))]
fn put_fitting(bytes: &[u8], space: &mut [u8]) -> usize
    ensures value { result ≡ length (fitting bytes.now (length space.old)) }
    ensures fits { result ≤ length space.old }
    ensures space_after { space.new ≡ fitting_into bytes.now space.old }
{
    let n = bytes.len().min(space.len());
    copy(&bytes[..n], &mut space[..n]);
    n
}

/// As many bytes as fit, as the operation reads them: those of a torn first blockette are zeros. How many they are.
#[tactic(auto, using(crate::proofs::ReadLaws::fit_length, crate::proofs::ReadLaws::put_whole, crate::proofs::ReadLaws::torn_room, crate::proofs::ReadLaws::put_torn))]
pub fn put_bytes_read(operation: Operation, bytes: &[u8], space: &mut [u8]) -> usize
    ensures value { result ≡ length (fitting (bytes_read operation bytes.now) (length space.old)) }
    ensures space_after { space.new ≡ fitting_into (bytes_read operation bytes.now) space.old }
{
    let n = put_fitting(bytes, space);
    if operation.supplies_count() {
        let torn = n.min(BLOCKETTE_LENGTH);
        space[..torn].fill(0);
    }
    n
}
