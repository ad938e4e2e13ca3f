//! A session: the controller, the call that a line makes, and the text that is put for it. `plain_reply` and
//! `lent_answer` make the call for the jobs program too.
ghost use Rattle.std.specs.Prelude.{◌≡◌, ◌+◌, ◌≤◌, ◌++◌, length};
ghost use Rattle.transfers.specs.Results.{result_with};
ghost use Rattle.controller.specs.Told.{told_of};
ghost use Rattle.controller.specs.Records.{answered_in};
ghost use Rattle.lines.specs.Limits.{answer_most};
ghost use Rattle.lines.specs.Line.{line_of, lent_line};
ghost use Rattle.lines.specs.Play.{plain_reply, part_answer, fields_answer, lent_answer, session_left, left};

use crate::limits::{CHECK_STORE, IMAGE_LIMIT, MARKS_LIMIT};
use crate::line::{Call, LentCall, PlainCall, ResultFields, read_line};
use crate::print::{put_answer, put_unreadable};
use common::refusals::Refusal;
use controller::controller::{Answer, Controller, Given};
use records::place::NO_PLACE;
use text::space::Text;
use transfers::data::HostBytes;
use transfers::verdict::TapeResult;

/// A call that is lent nothing.
#[tactic(auto, unfolding(crate::specs::Play::plain_reply))]
pub fn plain_reply(c: &mut Controller, call: PlainCall) -> Result<Answer, Refusal>
    ensures { told_of c.new result ≡ plain_reply c.old call }
{
    match call {
        PlainCall::Byte(byte) => c.byte_in_place(byte),
        PlainCall::Taken => c.taken_in_place(),
        PlainCall::Broken => c.broken_in_place(),
        PlainCall::Report(drive, report) => c.report_in_place(drive, report),
        PlainCall::Tick => c.tick_in_place(),
        PlainCall::Reset => c.reset_in_place(),
    }
}

/// What a call is lent: two buffers for host bytes, or an image and its marks, a space and a check store.
#[derive(Drop)]
pub struct Buffers {
    pub bytes: [u8; IMAGE_LIMIT],
    pub marks: [u8; MARKS_LIMIT],
    pub space: [u8; IMAGE_LIMIT],
    pub check: [u8; CHECK_STORE],
}

impl Buffers {
    ghost use Rattle.std.specs.Prelude.{replicate};
    ghost use Rattle.transfers.specs.Data.{check_store};
    ghost use Rattle.lines.specs.Limits.{image_limit, marks_limit};

    /// Nothing but zeros.
    pub fn new() -> Self
        ensures bytes { result.bytes ≡ replicate image_limit 0 }
        ensures marks { result.marks ≡ replicate marks_limit 0 }
        ensures space { result.space ≡ replicate image_limit 0 }
        ensures check { result.check ≡ replicate check_store 0 }
    {
        Buffers {
            bytes: [0; IMAGE_LIMIT],
            marks: [0; MARKS_LIMIT],
            space: [0; IMAGE_LIMIT],
            check: [0; CHECK_STORE],
        }
    }
}

// A result that is lent so much of a space: no more of it is given.
fn part_answer(
    c: &mut Controller,
    tape: &TapeResult,
    most: usize,
    space: &mut [u8],
    check: &mut [u8],
) -> Result<Given, Refusal>
    ensures { answered_in c.new result space.new check.new
        ≡ part_answer c.old (result_with tape.now) most space.old check.old }
{
    let end = most.min(space.len());
    let given = c.result_in_place(tape, &mut space[..end], check)?;
    Ok(Given {
        bytes: given.bytes.min(end),
        ..given
    })
}

// A result: it is lent as much of the space as it says.
#[tactic(auto, unfolding(crate::specs::Play::fields_answer))]
fn fields_answer(
    c: &mut Controller,
    fields: ResultFields<'_>,
    lent: &mut Buffers,
) -> Result<Given, Refusal>
    ensures { answered_in c.new result lent.new.space lent.new.check
        ≡ fields_answer c.old fields.entry lent.old.space lent.old.check }
{
    let image_end = fields.image.overwrite(&mut lent.bytes);
    let marks_end = fields.marks.overwrite(&mut lent.marks);
    let tape = TapeResult {
        code: fields.code,
        mark: fields.mark,
        late: fields.late,
        image: &lent.bytes[..image_end],
        marks: &lent.marks[..marks_end],
    };
    part_answer(c, &tape, fields.space, &mut lent.space, &mut lent.check)
}

/// A call that is lent space. Its host bytes, or its image and marks, are put into the buffers first.
#[tactic(auto, unfolding(crate::specs::Play::lent_answer))]
pub fn lent_answer(
    c: &mut Controller,
    call: LentCall<'_>,
    lent: &mut Buffers,
) -> Result<Given, Refusal>
    ensures { answered_in c.new result lent.new.space lent.new.check
        ≡ lent_answer c.old call.entry lent.old.space lent.old.check }
{
    match call {
        LentCall::HostData(host) => {
            let end = host.overwrite(&mut lent.bytes);
            let host = HostBytes {
                bytes: &lent.bytes[..end],
                place: NO_PLACE,
            };
            c.data_in_place(&host, &mut lent.space, &mut lent.check)
        }
        LentCall::Result(fields) => fields_answer(c, fields, lent),
    }
}

/// The controller, and what its calls are lent.
#[derive(Drop)]
pub struct Session {
    pub controller: Controller,
    pub buffers: Buffers,
}

impl Session {
    ghost use Rattle.controller.specs.Controller.{fresh};

    /// Before the first line.
    pub fn new() -> Self
        ensures { result.controller ≡ fresh }
    {
        Session {
            controller: Controller::fresh(),
            buffers: Buffers::new(),
        }
    }

    // A call that is lent space. It is made out of line, so that what it needs is made ready for its own lines alone:
    // the others are short and many.
    #[inline(never)]
    fn answer_lent<const N: usize>(&mut self, call: LentCall<'_>, out: &mut Text<N>)
        requires { length out.old + answer_most ≤ N }
        ensures fits { length out.new ≤ length out.old + answer_most }
        ensures left { left self.new (session_left self.old (lent_line call.entry)).text
            ≡ session_left self.old (lent_line call.entry) }
        ensures text { out.new ≡ out.old ++ (session_left self.old (lent_line call.entry)).text }
    {
        match lent_answer(&mut self.controller, call, &mut self.buffers) {
            Ok(given) => {
                let space = &self.buffers.space[..];
                let end = given.bytes.min(space.len());
                put_answer(Ok(given.answer), &space[..end], out);
            }
            Err(refusal) => put_answer(Err(refusal), &[], out),
        }
    }

    /// A line, without its #0A.
    #[tactic(auto, unfolding(crate::specs::Play::line_left, crate::specs::Line::line_read, crate::specs::Line::call_read))]
    pub fn answer<const N: usize>(&mut self, line: &[u8], out: &mut Text<N>)
        requires { length out.old + answer_most ≤ N }
        ensures fits { length out.new ≤ length out.old + answer_most }
        ensures left { left self.new (session_left self.old (line_of line.now)).text
            ≡ session_left self.old (line_of line.now) }
        ensures text { out.new ≡ out.old ++ (session_left self.old (line_of line.now)).text }
    {
        match read_line(line) {
            None => put_unreadable(out),
            Some(Call::Plain(call)) => {
                let answer = plain_reply(&mut self.controller, call);
                put_answer(answer, &[], out);
            }
            Some(Call::Lent(call)) => self.answer_lent(call, out),
        }
    }
}
