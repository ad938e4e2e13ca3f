//! A call on the state that bytes hold, and how it ends.
ghost use Rattle.std.specs.Prelude.{◌≡◌, true, false, Result as Outcome};
ghost use Rattle.std.specs.Fn.{FnOnceReturnsAtMut};
ghost use Rattle.common.specs.declared.refusals.Refusal.{Refusal as Refused};
ghost use Rattle.controller.specs.declared.controller.Answer.{Answer as Told};
ghost use Rattle.firmware.specs.Calls.{ended, end_stored, giving_none};

use crate::stored::Stored;
use common::refusals::Refusal;
use controller::controller::{Answer, Given};
use layout::answers::answer_bytes;
use layout::places::{ANSWER_LENGTH, STATE_LENGTH};

/// A refused call leaves state and answer as they were; any other leaves the next state and its answer.
pub fn end_stored<S: Stored>(
    next: &S,
    told: Result<Given, Refusal>,
    state: &mut [u8; STATE_LENGTH],
    answer: &mut [u8; ANSWER_LENGTH],
) -> u32
    ensures { ended result state.new answer.new
        ≡ end_stored (S.with_put next.now state.old) told state.old answer.old }
{
    match told {
        Err(refusal) => u32::from(refusal),
        Ok(given) => {
            let done = given.answer;
            *answer = answer_bytes(done.action, done.handed, given.bytes);
            next.put(state);
            0
        }
    }
}

/// A call that is lent nothing, on what the bytes hold; bytes that hold none are refused.
pub fn on_state<S: Stored, F: FnOnce(&mut S) -> Result<Answer, Refusal>>(
    state: &mut [u8; STATE_LENGTH],
    answer: &mut [u8; ANSWER_LENGTH],
    call: F,
) -> u32
    requires { F.IsAlwaysCallable call }
    ensures none { S.is_held state.old ≡ false → ended result state.new answer.new ≡ ended 1 state.old answer.old }
    ensures called { S.is_held state.old ≡ true → ((told : Outcome Told Refused) × (next : S)
        × FnOnceReturnsAtMut F.FnOnce call (S.held state.old) told next
        × (ended result state.new answer.new
        ≡ end_stored (S.with_put next state.old) (giving_none told) state.old answer.old)) }
{
    let Some(mut held) = S::held(state) else {
        return u32::from(Refusal::StateDamaged);
    };
    let told = call(&mut held).map(|answer| Given { answer, bytes: 0 });
    end_stored(&held, told, state, answer)
}
