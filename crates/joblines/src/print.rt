//! What is put for a line behind the text that is there. The functions are of the kind of those of `text::space`;
//! `lines::print` has the first four fields.
ghost use Rattle.std.specs.Prelude.{◌≡◌, ◌+◌, ◌*◌, ◌≤◌, ◌++◌, length};
ghost use Rattle.common.specs.Told.{refusal_number};
ghost use Rattle.text.specs.Limits.{record_most};
ghost use Rattle.lines.specs.Print.{action_of};
ghost use Rattle.joblines.specs.Limits.{job_reply_most, job_unreadable_length};
ghost use Rattle.joblines.specs.Print.{handed_of, handed_text, job_answer_text, job_unreadable_text};

use common::refusals::{Refusal, refusal_number};
use controller::controller::Answer;
use lines::print::{action_of, put_fields};
use status::words::ResultRecord;
use text::space::Text;

/// What a call hands back of a store.
#[tactic(auto, unfolding(crate::specs::Print::handed_text))]
pub fn put_handed<const N: usize>(handed: Option<ResultRecord>, out: &mut Text<N>)
    requires { length out.old + record_most ≤ N }
    ensures fits { length out.new ≤ length out.old + record_most }
    ensures text { out.new ≡ out.old ++ handed_text handed }
{
    match handed {
        None => out.put(b'-'),
        Some(result) => out.put_record(result.code, result.motion, result.count),
    }
}

/// A call's answer, with the bytes that it gives, if any, and what it hands back.
#[tactic(auto, unfolding(crate::specs::Print::job_answer_text, lines::specs::Print::fields_text))]
pub fn put_job_answer<const N: usize>(
    answer: Result<Answer, Refusal>,
    bytes: &[u8],
    out: &mut Text<N>,
)
    requires { length out.old + job_reply_most + 2 * length bytes.now ≤ N }
    ensures fits { length out.new ≤ length out.old + job_reply_most + 2 * length bytes.now }
    ensures text { out.new ≡ out.old
        ++ job_answer_text (refusal_number answer) (action_of answer) bytes.now (handed_of answer) }
{
    let handed = match answer {
        Ok(answer) => answer.handed,
        Err(_) => None,
    };
    put_fields(refusal_number(&answer), action_of(&answer), bytes, out);
    out.put(b',');
    put_handed(handed, out);
    out.put(b'\n');
}

/// The answer to an unreadable line.
#[tactic(auto, unfolding(crate::specs::Print::job_unreadable_text))]
pub fn put_job_unreadable<const N: usize>(out: &mut Text<N>)
    requires { length out.old + job_unreadable_length ≤ N }
    ensures fits { length out.new ≡ length out.old + job_unreadable_length }
    ensures text { out.new ≡ out.old ++ job_unreadable_text }
{
    out.put_all(b"?,-,,,-\n");
}
