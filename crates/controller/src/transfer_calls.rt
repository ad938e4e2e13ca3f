//! The two calls that are lent space, data and result, in place and by value. What they come to for the selected drive
//! is settled in transfers; here it is put into the state.
ghost use Rattle.std.specs.Prelude.{◌≡◌, Ok, length};
ghost use Rattle.transfers.specs.Data.{host_of, host_with, data_refusal};
ghost use Rattle.transfers.specs.Results.{result_of, result_with, result_refusal};
ghost use Rattle.controller.specs.Records.{answered, answered_in, words_of, with_status, with_after};
ghost use Rattle.controller.specs.Records.{data_done, result_done};
ghost use Rattle.controller.specs.Machine.{data_call, result_call};

use crate::controller::{Controller, Given, Reply};
use common::refusals::Refusal;
use link::state::{Body, Phase};
use operations::operation::Operation;
use operations::store::Store;
use status::drives::Drive;
use transfers::after::{After, Words};
use transfers::data::{HostBytes, check_data};
use transfers::settle::{settle_data, settle_result};
use transfers::verdict::TapeResult;

// The status words as they stand.
fn words_of(b: Body) -> Words
    ensures { result ≡ words_of b }
{
    Words {
        outcome: b.outcome,
        tertiary: b.tertiary,
        quintary: b.quintary,
    }
}

// And set anew.
fn set_status(b: &mut Body, words: Words)
    ensures { b.new ≡ with_status b.old words }
{
    b.outcome = words.outcome;
    b.tertiary = words.tertiary;
    b.quintary = words.quintary;
}

// What a result leaves: the words, and the gap of the selected drive.
fn set_after(b: &mut Body, after: After)
    ensures { b.new ≡ with_after b.old after }
{
    let drive = b.current_drive().with_gap(after.gap);
    set_status(b, after.words);
    b.set_current_drive(drive);
}

// In place. A call that is refused leaves the state and what it is lent as they are.
impl Controller {
    // The data call, carried out.
    #[tactic(auto, using(crate::proofs::AnswerLaws::answer_alike), unfolding(crate::specs::Records::data_done))]
    fn data_done(
        &mut self,
        drive: Drive,
        store: Store,
        host: &HostBytes,
        space: &mut [u8],
        check: &mut [u8],
    ) -> Given
        requires { data_refusal drive store (length host.now.bytes.now) host.now.place (length space.old)
            (length check.old) ≡ 0 }
        ensures { answered_in self.new (Ok result) space.new check.new
            ≡ data_done self.old.body drive store (host_with host.now) space.old check.old }
    {
        let written = settle_data(words_of(self.body), drive, store, host, space, check);
        set_status(&mut self.body, written.words);
        Given {
            answer: self.order_move(Operation::Write, store),
            bytes: written.bytes,
        }
    }

    // The result, carried out.
    #[tactic(auto, using(crate::proofs::AnswerLaws::answer_alike), unfolding(crate::specs::Records::result_done))]
    fn result_done(
        &mut self,
        drive: Drive,
        operation: Operation,
        store: Store,
        tape: &TapeResult,
        space: &mut [u8],
        check: &mut [u8],
    ) -> Given
        requires { result_refusal drive operation store (result_with tape.now) (length check.old) ≡ 0 }
        ensures { answered_in self.new (Ok result) space.new check.new
            ≡ result_done self.old.body drive operation store (result_with tape.now) space.old check.old }
    {
        let after = settle_result(
            words_of(self.body),
            drive,
            operation,
            store,
            tape,
            space,
            check,
        );
        set_after(&mut self.body, after);
        Given {
            answer: self.end_operation(operation, store),
            bytes: after.bytes,
        }
    }

    /// The host's bytes for a write, and the place of the one that came with bad parity, or NO_PLACE. The image stands
    /// at the start of the space afterwards.
    #[tactic(auto, using(common::proofs::RefusalLaws::refused_not_done), unfolding(crate::specs::Machine::data_in, crate::specs::Machine::data_call, common::specs::Pick::pick, crate::specs::Machine::data_for))]
    pub fn data_in_place(
        &mut self,
        host: &HostBytes,
        space: &mut [u8],
        check: &mut [u8],
    ) -> Result<Given, Refusal>
        ensures { answered_in self.new result space.new check.new
            ≡ data_call self.old (host_with host.now) space.old check.old }
    {
        self.check_sound()?;
        let Phase::DataAwaited(store) = self.phase else {
            return Err(Refusal::TransferNotAwaited);
        };
        let written = self.body.current_drive();
        check_data(
            written,
            store,
            host.bytes.len(),
            host.place,
            space.len(),
            check.len(),
        )?;
        Ok(self.data_done(written, store, host, space, check))
    }

    /// What came of an operation. The bytes that are delivered stand at the start of the host space afterwards.
    #[tactic(auto, using(common::proofs::RefusalLaws::refused_not_done), unfolding(crate::specs::Machine::result_in, crate::specs::Machine::result_call, common::specs::Pick::pick, crate::specs::Machine::result_for))]
    pub fn result_in_place(
        &mut self,
        tape: &TapeResult,
        space: &mut [u8],
        check: &mut [u8],
    ) -> Result<Given, Refusal>
        ensures { answered_in self.new result space.new check.new
            ≡ result_call self.old (result_with tape.now) space.old check.old }
    {
        self.check_sound()?;
        let Phase::ResultAwaited(operation, store) = self.phase else {
            return Err(Refusal::TransferNotAwaited);
        };
        let moved = self.body.current_drive();
        tape.check_result(moved, operation, store, check.len())?;
        Ok(self.result_done(moved, operation, store, tape, space, check))
    }
}

// By value.
impl Controller {
    /// The host's bytes for a write.
    pub fn data(
        mut self,
        host: &[u8],
        place: usize,
        space: &mut [u8],
        check: &mut [u8],
    ) -> Reply<Controller, Given>
        ensures { answered result space.new check.new
            ≡ data_call self (host_of host.now place) space.old check.old }
    {
        let host = HostBytes { bytes: host, place };
        let answer = self.data_in_place(&host, space, check);
        Reply {
            state: self,
            answer,
        }
    }

    /// What came of an operation.
    pub fn result(
        mut self,
        code: u8,
        mark: bool,
        late: u8,
        image: &[u8],
        marks: &[u8],
        space: &mut [u8],
        check: &mut [u8],
    ) -> Reply<Controller, Given>
        ensures { answered result space.new check.new
            ≡ result_call self (result_of code mark late image.now marks.now)
            space.old check.old }
    {
        let tape = TapeResult {
            code,
            mark,
            late,
            image,
            marks,
        };
        let answer = self.result_in_place(&tape, space, check);
        Reply {
            state: self,
            answer,
        }
    }
}
