//! The bytes of an answer.
ghost use Rattle.std.specs.Prelude.{◌≡◌};
ghost use Rattle.layout.specs.Answers.{action_kind, action_frame, answer_bytes};

use crate::places::ANSWER_LENGTH;
use link::frames::Frame;
use link::state::Action;
use status::words::ResultRecord;

#[tactic(auto, unfolding(crate::specs::Answers::action_kind))]
fn action_kind(action: Action) -> u8
    ensures { result ≡ action_kind action }
{
    match action {
        Action::Nothing => 0,
        Action::Byte(_) => 1,
        Action::Text(_) => 2,
        Action::Order(_) => 3,
    }
}

// The six bytes of an action; a byte that is offered stands first.
#[tactic(auto, unfolding(crate::specs::Answers::action_frame))]
fn action_frame(action: Action) -> Frame
    ensures { result ≡ action_frame action }
{
    match action {
        Action::Nothing => Frame::default(),
        Action::Byte(byte) => Frame {
            b0: byte,
            ..Frame::default()
        },
        Action::Text(text) => text,
        Action::Order(order) => order,
    }
}

/// A whole answer, with how many bytes of the lent space are given. Where no store is settled, its record is zeros.
#[tactic(auto, unfolding(crate::specs::Answers::answer_bytes, crate::specs::Answers::is_settled, crate::specs::Answers::settled_record))]
pub fn answer_bytes(
    action: Action,
    handed: Option<ResultRecord>,
    given: usize,
) -> [u8; ANSWER_LENGTH]
    ensures { result ≡ answer_bytes action handed given }
{
    let kind = action_kind(action);
    let frame = action_frame(action);
    let settled = handed.is_some();
    let record = handed.unwrap_or_default();
    let [_, _, count_high, count_low] = record.count.to_be_bytes();
    let [_, _, _, _, given_0, given_1, given_2, given_3] = (given as u64).to_be_bytes();
    [
        kind,
        frame.b0,
        frame.b1,
        frame.b2,
        frame.b3,
        frame.b4,
        frame.b5,
        settled as u8,
        record.code,
        record.motion,
        count_high,
        count_low,
        given_0,
        given_1,
        given_2,
        given_3,
    ]
}
