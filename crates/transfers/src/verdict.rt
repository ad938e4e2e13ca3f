//! What is decided of a result, once, before any of it is told.
ghost use Rattle.std.specs.Prelude.{◌≡◌, true, ◌≤◌, length, is_some};
ghost use Rattle.marks.specs.Marks.{most_marks};
ghost use Rattle.marks.specs.Scan.{told_findings};
ghost use Rattle.operations.specs.Operation.{supplies_count};
ghost use Rattle.transfers.specs.Results.{result_with, is_gone, findings_read, code_reported, final_code, reads_gcr};
ghost use Rattle.transfers.specs.Results.{record_count, used_count, count_in, told_verdict, verdict_of};

use marks::{Findings, findings_of, findings_torn};
use operations::codes::{BLOCKETTE_NUMBER_WRONG, OFFLINE, RECOVERABLE, UNRECOVERABLE};
use operations::operation::Operation;
use operations::store::Store;
use records::count::count_of;
use status::drives::{Drive, INSTALLED};

/// What comes of an operation: its code, the mark flag and the late flags, and the image and marks that it brings.
#[derive(Clone, Copy)]
pub struct TapeResult<'a> {
    pub code: u8,
    pub mark: bool,
    pub late: u8,
    pub image: &'a [u8],
    pub marks: &'a [u8],
}

/// What is decided of a result.
#[derive(Clone, Copy)]
pub struct Verdict {
    /// whether the tape that should have moved is gone
    pub gone: bool,
    /// the count of an image that is used
    pub used: Option<u16>,
    /// whether a count is supplied
    pub supplied: bool,
    /// whether tertiary, quintary and the check store are made anew
    pub renews: bool,
    /// the code that the host sees
    pub code: u8,
    /// what the scan found
    pub found: Findings,
}

// Whether the tape that should have moved is gone.
#[tactic(auto, unfolding(crate::specs::Results::is_gone))]
fn is_gone(drive: Drive, operation: Operation) -> bool
    ensures { result ≡ is_gone drive operation }
{
    operation.motion().moves_tape() & !drive.reports(INSTALLED)
}

// What the scan finds in the marks as the operation reads them: with a supplied count the first blockette is torn.
#[tactic(auto, unfolding(crate::specs::Results::marks_read, common::specs::Pick::pick))]
fn findings_read(operation: Operation, marks: &[u8]) -> Findings
    requires { supplies_count operation ≡ true → length marks.now ≤ most_marks }
    ensures { told_findings result ≡ findings_read operation marks.now }
{
    if operation.supplies_count() {
        return findings_torn(marks);
    }
    findings_of(marks)
}

// The code that is reported, but that a supplied count of 0 finds no blockette.
#[tactic(auto, unfolding(crate::specs::Results::code_reported, common::specs::Pick::pick))]
fn code_reported(operation: Operation, store: Store, code: u8) -> u8
    ensures { result ≡ code_reported operation store code }
{
    if operation.supplies_count() & ((store.held_count() == 0) & (code == 0)) {
        return BLOCKETTE_NUMBER_WRONG;
    }
    code
}

// The code that the host sees.
#[tactic(auto, unfolding(crate::specs::Results::final_code, common::specs::Pick::pick, marks::specs::Scan::is_found))]
fn final_code(gone: bool, code: u8, found: Findings) -> u8
    ensures { result ≡ final_code gone code (told_findings found) }
{
    if gone {
        return OFFLINE;
    }
    if found.stop.is_some() {
        return UNRECOVERABLE;
    }
    if found.odd.is_some() | found.even.is_some() {
        return RECOVERABLE;
    }
    code
}

// Whether tertiary, quintary and the check store are made anew.
#[tactic(auto, unfolding(crate::specs::Results::reads_gcr))]
fn reads_gcr(drive: Drive, operation: Operation) -> bool
    ensures { result ≡ reads_gcr drive operation }
{
    operation.supplies_count() | (operation.brings_record() & drive.is_gcr())
}

// The count of a record: the supplied one, or the image's own.
#[tactic(auto, unfolding(crate::specs::Results::record_count, common::specs::Pick::pick))]
fn record_count(operation: Operation, store: Store, image: &[u8]) -> u16
    requires { 2 ≤ length image.now }
    ensures { result ≡ record_count operation store image.now }
{
    if operation.supplies_count() {
        return store.held_count();
    }
    count_of(image)
}

// The count of an image that is used.
#[tactic(auto, unfolding(crate::specs::Results::used_count, common::specs::Pick::pick))]
fn used_count(used: bool, operation: Operation, store: Store, image: &[u8]) -> Option<u16>
    requires { used ≡ true → 2 ≤ length image.now }
    ensures is_used { is_some result ≡ used }
    ensures counted { count_in result ≡ used_count used operation store image.now }
{
    if used {
        return Some(record_count(operation, store, image));
    }
    None
}

impl TapeResult<'_> {
    /// The verdict; the only place where the marks of a result are scanned.
    #[tactic(auto, using(common::proofs::PickLaws::both_hold), unfolding(crate::specs::Results::verdict_of))]
    pub fn verdict_of(&self, drive: Drive, operation: Operation, store: Store) -> Verdict
        requires in_bounds { (length self.now.image.now ≡ 0 → ⊥) → 2 ≤ length self.now.image.now }
        requires marks_len_bound { supplies_count operation ≡ true → length self.now.marks.now ≤ most_marks }
        ensures { told_verdict result ≡ verdict_of drive operation store (result_with self.now) }
    {
        let found = findings_read(operation, self.marks);
        let gone = is_gone(drive, operation);
        let reported = code_reported(operation, store, self.code);
        let uses = !gone & !self.image.is_empty();
        Verdict {
            gone,
            used: used_count(uses, operation, store, self.image),
            supplied: operation.supplied_count(store) != 0,
            renews: reads_gcr(drive, operation),
            code: final_code(gone, reported, found),
            found,
        }
    }
}
