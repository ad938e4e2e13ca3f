//! The answers by the papers' lists: which codes an operation's result may report, and which of them ask no retry. The
//! core's table is not looked at.
ghost use Rattle.std.specs.Prelude.{◌≡◌};
ghost use Rattle.operations.specs.Answers.{answer_of, listing_number, listed_codes, clear_codes};
ghost use Rattle.table.specs.Rules.{is_listed, is_clear};

use operations::answers::Listing;
use operations::operation::Operation;

// The codes of an operation's list. No list has 0, which is always reported.
#[tactic(auto, unfolding(operations::specs::Answers::listed_codes, operations::specs::Answers::forward_codes, operations::specs::Answers::supplied_codes, operations::specs::Answers::end_codes, operations::specs::Answers::reverse_codes))]
fn listed_codes(operation: Operation) -> &'static [u8]
    ensures { result.now ≡ listed_codes operation }
{
    match operation {
        Operation::Read | Operation::SkipForward | Operation::SearchForward => {
            b"\x07\x08\x09\x0A\x0C\x0D\x0E\x0F\x10\x11\x12\x13\x17"
        }
        Operation::SuppliedCount => b"\x07\x08\x09\x0A\x13\x14\x17",
        Operation::Write => b"\x07\x08\x09\x0B\x0C\x0D\x0E\x0F\x10\x11\x12\x13\x14\x17",
        Operation::WriteMark => b"\x07\x08\x09\x0B\x0C\x0D\x17",
        Operation::SkipReverse | Operation::SearchReverse => b"\x07\x09\x0C\x0D\x0E\x18",
        Operation::Erase => b"\x06\x07\x08\x17",
        Operation::Rewind | Operation::FastForward => b"\x06\x07",
        Operation::CheckBytes => b"",
    }
}

// Those of them that ask no retry.
#[tactic(auto, unfolding(operations::specs::Answers::clear_codes, operations::specs::Answers::trailing_codes))]
fn clear_codes(operation: Operation) -> &'static [u8]
    ensures { result.now ≡ clear_codes operation }
{
    match operation {
        Operation::Read | Operation::SearchForward => b"\x10\x11\x12",
        Operation::SkipForward => b"\x0C\x0D\x0F\x10\x11\x12",
        _ => b"",
    }
}

// Whether an operation's list has a code.
fn is_listed(operation: Operation, code: u8) -> bool
    ensures { result ≡ is_listed operation code }
{
    listed_codes(operation).contains(&code)
}

// Whether a code of an operation's list asks no retry.
fn is_clear(operation: Operation, code: u8) -> bool
    ensures { result ≡ is_clear operation code }
{
    clear_codes(operation).contains(&code)
}

/// The answer of an operation and a code, worked out.
#[tactic(auto, unfolding(operations::specs::Answers::answer_of, common::specs::Pick::pick))]
pub fn answer_by_rules(operation: Operation, code: u8) -> Listing
    ensures { listing_number result ≡ answer_of operation code }
{
    if (code == 0) | is_clear(operation, code) {
        return Listing::Reported;
    }
    if is_listed(operation, code) {
        return Listing::WithRetry;
    }
    Listing::Never
}
