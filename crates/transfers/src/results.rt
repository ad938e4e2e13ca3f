//! What is told of a result by the verdict on it: the status words and the gap.
ghost use Rattle.std.specs.Prelude.{◌≡◌};
ghost use Rattle.transfers.specs.Results.{renewed, wrote_well, result_count, result_bits};
ghost use Rattle.marks.specs.Scan.{told_findings};
ghost use Rattle.transfers.specs.Results.{told_verdict, with_retry, result_words, result_gap};

use crate::after::Words;
use crate::verdict::{TapeResult, Verdict};
use marks::Findings;
use operations::operation::Operation;
use operations::store::Store;
use status::drives::Drive;
use status::words::{Outcome, ResultRecord, Word};

// Whether a write came to code 0.
#[tactic(auto, unfolding(crate::specs::Results::wrote_well))]
fn wrote_well(operation: Operation, code: u8) -> bool
    ensures { result ≡ wrote_well operation code }
{
    (operation == Operation::Write) & (code == 0)
}

// An outcome with bit 2, which the code and bits 16-20 decide; bit 19 does not count in a skip.
#[tactic(auto, unfolding(crate::specs::Results::with_retry))]
fn with_retry(outcome: Outcome, operation: Operation, found: Findings) -> Outcome
    ensures { result ≡ with_retry outcome operation (told_findings found) }
{
    let bits = outcome.any_bit(!operation.is_skip());
    Outcome {
        retry: operation.retry_of(outcome.result.code, found.checks_alone(), bits),
        ..outcome
    }
}

impl Verdict {
    // Tertiary or quintary after a result: what the scan tells, zero where the image goes unused, or as it was.
    #[tactic(auto, unfolding(common::specs::Pick::pick))]
    fn renewed(self, told: Word, before: Word) -> Word
        ensures { result ≡ renewed (told_verdict self) told before }
    {
        if !self.renews {
            return before;
        }
        if self.gone { Word::default() } else { told }
    }

    // The count after a result: the supplied one, that of an image that is used, of a write with code 0, or as it was.
    #[tactic(auto, unfolding(crate::specs::Results::result_count, common::specs::Pick::pick))]
    fn result_count(self, operation: Operation, store: Store, before: u32) -> u32
        ensures { result ≡ result_count (told_verdict self) operation store before }
    {
        if self.supplied {
            return store.held_count() as u32;
        }
        if let Some(count) = self.used {
            return count as u32;
        }
        if wrote_well(operation, self.code) {
            return store.held_count() as u32;
        }
        before
    }

    // The bits of primary, and the record of code, motion and count: `bytes` are to be delivered, and `space` fit.
    #[tactic(auto, unfolding(crate::specs::Results::result_bits))]
    fn result_bits(
        self,
        outcome: Outcome,
        operation: Operation,
        store: Store,
        tape: &TapeResult,
        bytes: usize,
        space: usize,
    ) -> Outcome
        ensures { result
            ≡ result_bits (told_verdict self) outcome operation store tape.now.mark tape.now.late bytes space }
    {
        let wrote = wrote_well(operation, self.code);
        Outcome {
            mark: tape.mark & !self.gone,
            result: ResultRecord {
                code: self.code,
                motion: operation.motion().motion_of(self.code),
                count: self.result_count(operation, store, outcome.result.count),
            },
            overflow: outcome.overflow | (space < bytes),
            wdl: outcome.wdl | (tape.late % 2 == 1),
            rdl: outcome.rdl | (tape.late / 2 % 2 == 1),
            supplied: outcome.supplied | self.supplied,
            counted: outcome.counted | self.supplied | self.used.is_some() | wrote,
            ..outcome
        }
    }

    /// All words after a result.
    #[tactic(auto, unfolding(crate::specs::Results::result_words, crate::specs::Results::result_tertiary, crate::specs::Results::result_quintary))]
    pub fn result_words(
        self,
        words: Words,
        operation: Operation,
        store: Store,
        tape: &TapeResult,
        bytes: usize,
        space: usize,
    ) -> Words
        ensures { result
            ≡ result_words words (told_verdict self) operation store tape.now.mark tape.now.late bytes space }
    {
        let bits = self.result_bits(words.outcome, operation, store, tape, bytes, space);
        Words {
            outcome: with_retry(bits, operation, self.found),
            tertiary: self.renewed(
                Word::tertiary_of(self.found.odd, self.found.even),
                words.tertiary,
            ),
            quintary: self.renewed(Word::quintary_of(self.found.stop), words.quintary),
        }
    }
}

/// The drive's gap, by the final code.
#[tactic(auto, unfolding(crate::specs::Results::result_gap))]
pub fn result_gap(drive: Drive, operation: Operation, code: u8) -> u8
    ensures { result ≡ result_gap drive operation code }
{
    operation.motion().gap_after(code, drive.gap)
}
