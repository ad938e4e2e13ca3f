//! What is put for a line behind the text that is there. The functions are of the kind of those of `text::space`.
ghost use Rattle.std.specs.Prelude.{◌≡◌, ◌≤◌, ◌+◌, ◌++◌, length};
ghost use Rattle.contest.specs.Told.{told};
ghost use Rattle.contestlines.specs.Limits.{contest_most, contest_unreadable_length};
ghost use Rattle.contestlines.specs.Print.{verdict_sign, opening_sign};
ghost use Rattle.contestlines.specs.Print.{contest_text, contest_unreadable_text, contest_line_text};

use crate::line::read_question;
use common::refusals::{Refusal, refusal_number};
use contest::contest::{Move, Verdict};
use text::space::Text;

// Whether an answer is yes or no, and the first store, or none.
#[tactic(auto, unfolding(crate::specs::Print::verdict_sign, crate::specs::Print::opening_sign, crate::specs::Print::store_sign, crate::specs::Print::move_sign))]
fn signs(answer: Result<Verdict, Refusal>) -> (u8, u8)
    ensures verdict { result.0 ≡ verdict_sign (told answer) }
    ensures opening { result.1 ≡ opening_sign (told answer) }
{
    match answer {
        Err(_) => (b'-', b'-'),
        Ok(Verdict::No) => (b'N', b'-'),
        Ok(Verdict::Yes(None)) => (b'Y', b'-'),
        Ok(Verdict::Yes(Some(Move::Write))) => (b'Y', b'W'),
        Ok(Verdict::Yes(Some(Move::SkipReverse))) => (b'Y', b'S'),
    }
}

// An answer.
#[tactic(auto, unfolding(crate::specs::Print::contest_text, crate::specs::Print::refusal_of))]
fn put_contest<const N: usize>(answer: Result<Verdict, Refusal>, out: &mut Text<N>)
    requires { length out.old + contest_most ≤ N }
    ensures fits { length out.new ≤ length out.old + contest_most }
    ensures text { out.new ≡ out.old ++ contest_text (told answer) }
{
    let (verdict, opening) = signs(answer);
    out.put_refusal(refusal_number(&answer));
    out.put_all(&[b',', verdict, b',', opening, b'\n']);
}

/// The answer to an unreadable line.
#[tactic(auto, unfolding(crate::specs::Print::contest_unreadable_text))]
pub fn put_contest_unreadable<const N: usize>(out: &mut Text<N>)
    requires { length out.old + contest_most ≤ N }
    ensures fits { length out.new ≡ length out.old + contest_unreadable_length }
    ensures text { out.new ≡ out.old ++ contest_unreadable_text }
{
    out.put_all(b"?,-,-\n");
}

/// The answer to a line, without its #0A.
#[tactic(auto, unfolding(crate::specs::Print::contest_line_text, crate::specs::Print::question_text))]
pub fn put_contest_line<const N: usize>(line: &[u8], out: &mut Text<N>)
    requires { length out.old + contest_most ≤ N }
    ensures fits { length out.new ≤ length out.old + contest_most }
    ensures text { out.new ≡ out.old ++ contest_line_text line.now }
{
    match read_question(line) {
        None => put_contest_unreadable(out),
        Some(question) => put_contest(question.solve(), out),
    }
}
