//! A session of jobs: the dispatcher, the call that a line makes, and the text that is put for it. The call of a line
//! of the session program's is made by `lines::play` of the controller, where the queues are sound.
ghost use Rattle.std.specs.Prelude.{◌≡◌, ◌+◌, ◌≤◌, ◌++◌, length};
ghost use Rattle.dispatcher.specs.Told.{told_of};
ghost use Rattle.dispatcher.specs.Dispatcher.{answered_in};
ghost use Rattle.joblines.specs.Limits.{job_answer_most};
ghost use Rattle.joblines.specs.Play.{plain_dispatched, lent_dispatched, lent_left, job_left, job_answer};

use crate::line::{JobCall, read_job_line};
use crate::print::{put_job_answer, put_job_unreadable};
use common::refusals::Refusal;
use controller::controller::{Answer, Given};
use dispatcher::dispatcher::Dispatcher;
use lines::line::{Call, LentCall, PlainCall};
use lines::play::{Buffers, lent_answer, plain_reply};
use text::space::Text;

// A call that is lent nothing, passed on.
#[tactic(auto, using(dispatcher::proofs::ToldLaws::told_beside), unfolding(crate::specs::Play::plain_dispatched, dispatcher::specs::Dispatcher::pass_on, common::specs::Pick::pick))]
fn plain_dispatched(d: &mut Dispatcher, call: PlainCall) -> Result<Answer, Refusal>
    ensures { told_of d.new result ≡ plain_dispatched d.old call }
{
    d.queues.check_sound()?;
    plain_reply(&mut d.controller, call)
}

// A call that is lent space, passed on.
#[tactic(auto, unfolding(crate::specs::Play::lent_dispatched, dispatcher::specs::Dispatcher::passed_answer, common::specs::Pick::pick))]
fn lent_dispatched(
    d: &mut Dispatcher,
    call: LentCall<'_>,
    lent: &mut Buffers,
) -> Result<Given, Refusal>
    ensures { answered_in d.new result lent.new.space lent.new.check
        ≡ lent_dispatched d.old call.entry lent.old.space lent.old.check }
{
    d.queues.check_sound()?;
    lent_answer(&mut d.controller, call, lent)
}

/// The dispatcher, and what its calls are lent.
#[derive(Drop)]
pub struct Jobs {
    pub dispatcher: Dispatcher,
    pub buffers: Buffers,
}

impl Jobs {
    ghost use Rattle.dispatcher.specs.Dispatcher.{fresh_dispatcher};

    /// Before the first line.
    pub fn new() -> Self
        ensures { result.dispatcher ≡ fresh_dispatcher }
    {
        Jobs {
            dispatcher: Dispatcher::fresh(),
            buffers: Buffers::new(),
        }
    }

    // A call that is lent space. It is made out of line, so that what it needs is made ready for its own lines alone:
    // the others are short and many.
    #[inline(never)]
    fn answer_lent<const N: usize>(&mut self, call: LentCall<'_>, out: &mut Text<N>)
        requires { length out.old + job_answer_most ≤ N }
        ensures fits { length out.new ≤ length out.old + job_answer_most }
        ensures left { job_left self.new (lent_left self.old call.entry).text ≡ lent_left self.old call.entry }
        ensures text { out.new ≡ out.old ++ (lent_left self.old call.entry).text }
    {
        match lent_dispatched(&mut self.dispatcher, call, &mut self.buffers) {
            Ok(given) => {
                let space = &self.buffers.space[..];
                let end = given.bytes.min(space.len());
                put_job_answer(Ok(given.answer), &space[..end], out);
            }
            Err(refusal) => put_job_answer(Err(refusal), &[], out),
        }
    }

    /// A line, without its #0A.
    pub fn answer<const N: usize>(&mut self, line: &[u8], out: &mut Text<N>)
        requires { length out.old + job_answer_most ≤ N }
        ensures fits { length out.new ≤ length out.old + job_answer_most }
        ensures left { job_left self.new (job_answer self.old line.now).text ≡ job_answer self.old line.now }
        ensures text { out.new ≡ out.old ++ (job_answer self.old line.now).text }
    {
        match read_job_line(line) {
            None => put_job_unreadable(out),
            Some(JobCall::Queue(job, store)) => {
                put_job_answer(self.dispatcher.queue_in_place(job, store), &[], out);
            }
            Some(JobCall::Hand) => put_job_answer(self.dispatcher.hand_in_place(), &[], out),
            Some(JobCall::Session(Call::Plain(call))) => {
                put_job_answer(plain_dispatched(&mut self.dispatcher, call), &[], out);
            }
            Some(JobCall::Session(Call::Lent(call))) => self.answer_lent(call, out),
        }
    }
}
