//! What is put for a line behind the text that is there. The functions are of the kind of those of `text::space`.
ghost use Rattle.std.specs.Prelude.{◌≡◌, ◌+◌, ◌*◌, ◌≤◌, ◌++◌, length};
ghost use Rattle.common.specs.Told.{refusal_number};
ghost use Rattle.lines.specs.Limits.{action_most, head_most, reply_most, unreadable_length};
ghost use Rattle.lines.specs.Print.{action_letter, six_text, action_text, action_of, fields_text, answer_text};
ghost use Rattle.lines.specs.Print.{unreadable_text};

use common::refusals::{Refusal, refusal_number};
use controller::controller::Answer;
use link::frames::Frame;
use link::state::Action;
use text::space::Text;

// The letter of an action.
#[tactic(auto, unfolding(crate::specs::Print::action_letter))]
fn action_letter(action: Action) -> u8
    ensures { result ≡ action_letter action }
{
    match action {
        Action::Nothing => b'-',
        Action::Byte(_) => b'A',
        Action::Text(_) => b'P',
        Action::Order(_) => b'M',
    }
}

// Six bytes.
#[tactic(auto, unfolding(crate::specs::Print::six_bytes))]
fn put_six<const N: usize>(six: Frame, out: &mut Text<N>)
    requires { length out.old + action_most ≤ N }
    ensures fits { length out.new ≤ length out.old + action_most }
    ensures text { out.new ≡ out.old ++ six_text six }
{
    out.put_bytes(&[six.b0, six.b1, six.b2, six.b3, six.b4, six.b5]);
}

// The bytes of an action.
#[tactic(auto, using(text::proofs::TextLaws::bytes_text_one), unfolding(crate::specs::Print::action_bytes, text::specs::Print::bytes_text))]
fn put_action<const N: usize>(action: Action, out: &mut Text<N>)
    requires { length out.old + action_most ≤ N }
    ensures fits { length out.new ≤ length out.old + action_most }
    ensures text { out.new ≡ out.old ++ action_text action }
{
    match action {
        Action::Nothing => {}
        Action::Byte(byte) => out.put_byte(byte),
        Action::Text(six) | Action::Order(six) => put_six(six, out),
    }
}

/// The action of a call's answer: nothing where it is refused.
pub fn action_of(answer: &Result<Answer, Refusal>) -> Action
    ensures { result ≡ action_of answer.now }
{
    match answer {
        Ok(answer) => answer.action,
        Err(_) => Action::Nothing,
    }
}

/// A refusal's number, an action, its bytes, and the bytes that a call gives, if any: the four fields of its answer.
#[tactic(auto, unfolding(crate::specs::Print::head_text, crate::specs::Print::fields_text))]
pub fn put_fields<const N: usize>(refusal: u32, action: Action, bytes: &[u8], out: &mut Text<N>)
    requires { length out.old + head_most + 2 * length bytes.now ≤ N }
    ensures fits { length out.new ≤ length out.old + head_most + 2 * length bytes.now }
    ensures text { out.new ≡ out.old ++ fields_text refusal action bytes.now }
{
    out.put_refusal(refusal);
    out.put_all(&[b',', action_letter(action), b',']);
    put_action(action, out);
    out.put(b',');
    out.put_bytes(bytes);
}

/// A call's answer, with the bytes that it gives, if any.
#[tactic(auto, unfolding(crate::specs::Print::answer_text, crate::specs::Print::fields_text))]
pub fn put_answer<const N: usize>(answer: Result<Answer, Refusal>, bytes: &[u8], out: &mut Text<N>)
    requires { length out.old + reply_most + 2 * length bytes.now ≤ N }
    ensures fits { length out.new ≤ length out.old + reply_most + 2 * length bytes.now }
    ensures text { out.new ≡ out.old ++ answer_text (refusal_number answer) (action_of answer) bytes.now }
{
    put_fields(refusal_number(&answer), action_of(&answer), bytes, out);
    out.put(b'\n');
}

/// The answer to an unreadable line.
#[tactic(auto, unfolding(crate::specs::Print::unreadable_text))]
pub fn put_unreadable<const N: usize>(out: &mut Text<N>)
    requires { length out.old + unreadable_length ≤ N }
    ensures fits { length out.new ≡ length out.old + unreadable_length }
    ensures text { out.new ≡ out.old ++ unreadable_text }
{
    out.put_all(b"?,-,,\n");
}
