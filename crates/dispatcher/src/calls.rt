//! The controller's eight calls, passed on: in place, and by value on top. Each refuses queues out of range, and is the
//! controller's own otherwise; the queues stay as they are.
ghost use Rattle.std.specs.Prelude.{◌≡◌};
ghost use Rattle.transfers.specs.Data.{host_of, host_with};
ghost use Rattle.transfers.specs.Results.{result_of, result_with};
ghost use Rattle.dispatcher.specs.Told.{told, told_of};
ghost use Rattle.dispatcher.specs.Dispatcher.{byte_call, taken_call, broken_call, report_call, tick_call, reset_call};
ghost use Rattle.dispatcher.specs.Dispatcher.{answered, answered_in, data_call, result_call};

use crate::dispatcher::Dispatcher;
use common::refusals::Refusal;
use controller::controller::{Answer, Given, Reply};
use transfers::data::HostBytes;
use transfers::verdict::TapeResult;

impl Dispatcher {
    /// A byte from the host, in place.
    #[tactic(auto, using(common::proofs::PickLaws::pick_yes, common::proofs::PickLaws::pick_no, crate::proofs::ToldLaws::told_beside), unfolding(crate::specs::Dispatcher::pass_on))]
    pub fn byte_in_place(&mut self, byte: u8) -> Result<Answer, Refusal>
        ensures { told_of self.new result ≡ byte_call self.old byte }
    {
        self.queues.check_sound()?;
        self.controller.byte_in_place(byte)
    }

    /// The same by value.
    pub fn byte(mut self, byte: u8) -> Reply<Dispatcher>
        ensures { told result ≡ byte_call self byte }
    {
        let answer = self.byte_in_place(byte);
        Reply {
            state: self,
            answer,
        }
    }

    /// The ACK that was offered is taken, in place.
    #[tactic(auto, using(common::proofs::PickLaws::pick_yes, common::proofs::PickLaws::pick_no, crate::proofs::ToldLaws::told_beside), unfolding(crate::specs::Dispatcher::pass_on))]
    pub fn taken_in_place(&mut self) -> Result<Answer, Refusal>
        ensures { told_of self.new result ≡ taken_call self.old }
    {
        self.queues.check_sound()?;
        self.controller.taken_in_place()
    }

    /// The same by value.
    pub fn taken(mut self) -> Reply<Dispatcher>
        ensures { told result ≡ taken_call self }
    {
        let answer = self.taken_in_place();
        Reply {
            state: self,
            answer,
        }
    }

    /// The link is broken, in place.
    #[tactic(auto, using(common::proofs::PickLaws::pick_yes, common::proofs::PickLaws::pick_no, crate::proofs::ToldLaws::told_beside), unfolding(crate::specs::Dispatcher::pass_on))]
    pub fn broken_in_place(&mut self) -> Result<Answer, Refusal>
        ensures { told_of self.new result ≡ broken_call self.old }
    {
        self.queues.check_sound()?;
        self.controller.broken_in_place()
    }

    /// The same by value.
    pub fn broken(mut self) -> Reply<Dispatcher>
        ensures { told result ≡ broken_call self }
    {
        let answer = self.broken_in_place();
        Reply {
            state: self,
            answer,
        }
    }

    /// A drive reports, in place.
    #[tactic(auto, using(common::proofs::PickLaws::pick_yes, common::proofs::PickLaws::pick_no, crate::proofs::ToldLaws::told_beside), unfolding(crate::specs::Dispatcher::pass_on))]
    pub fn report_in_place(&mut self, drive: u8, report: u8) -> Result<Answer, Refusal>
        ensures { told_of self.new result ≡ report_call self.old drive report }
    {
        self.queues.check_sound()?;
        self.controller.report_in_place(drive, report)
    }

    /// The same by value.
    pub fn report(mut self, drive: u8, report: u8) -> Reply<Dispatcher>
        ensures { told result ≡ report_call self drive report }
    {
        let answer = self.report_in_place(drive, report);
        Reply {
            state: self,
            answer,
        }
    }

    /// A tick, while idle, in place.
    #[tactic(auto, using(common::proofs::PickLaws::pick_yes, common::proofs::PickLaws::pick_no, crate::proofs::ToldLaws::told_beside), unfolding(crate::specs::Dispatcher::pass_on))]
    pub fn tick_in_place(&mut self) -> Result<Answer, Refusal>
        ensures { told_of self.new result ≡ tick_call self.old }
    {
        self.queues.check_sound()?;
        self.controller.tick_in_place()
    }

    /// The same by value.
    pub fn tick(mut self) -> Reply<Dispatcher>
        ensures { told result ≡ tick_call self }
    {
        let answer = self.tick_in_place();
        Reply {
            state: self,
            answer,
        }
    }

    /// A reset, in place.
    #[tactic(auto, using(common::proofs::PickLaws::pick_yes, common::proofs::PickLaws::pick_no, crate::proofs::ToldLaws::told_beside), unfolding(crate::specs::Dispatcher::pass_on))]
    pub fn reset_in_place(&mut self) -> Result<Answer, Refusal>
        ensures { told_of self.new result ≡ reset_call self.old }
    {
        self.queues.check_sound()?;
        self.controller.reset_in_place()
    }

    /// The same by value.
    pub fn reset(mut self) -> Reply<Dispatcher>
        ensures { told result ≡ reset_call self }
    {
        let answer = self.reset_in_place();
        Reply {
            state: self,
            answer,
        }
    }

    /// The host's bytes for a write, and the place of the one that came with bad parity, or NO_PLACE, in place.
    #[tactic(auto, using(common::proofs::PickLaws::pick_yes, common::proofs::PickLaws::pick_no, crate::proofs::ToldLaws::given_beside), unfolding(crate::specs::Dispatcher::passed_answer))]
    pub fn data_in_place(
        &mut self,
        host: &HostBytes,
        space: &mut [u8],
        check: &mut [u8],
    ) -> Result<Given, Refusal>
        ensures { answered_in self.new result space.new check.new
            ≡ data_call self.old (host_with host.now) space.old check.old }
    {
        self.queues.check_sound()?;
        self.controller.data_in_place(host, space, check)
    }

    /// The same by value.
    pub fn data(
        mut self,
        host: &[u8],
        place: usize,
        space: &mut [u8],
        check: &mut [u8],
    ) -> Reply<Dispatcher, Given>
        ensures { answered result space.new check.new
            ≡ data_call self (host_of host.now place) space.old check.old }
    {
        let host = HostBytes { bytes: host, place };
        let answer = self.data_in_place(&host, space, check);
        Reply {
            state: self,
            answer,
        }
    }

    /// What came of an operation, in place.
    #[tactic(auto, using(common::proofs::PickLaws::pick_yes, common::proofs::PickLaws::pick_no, crate::proofs::ToldLaws::given_beside), unfolding(crate::specs::Dispatcher::passed_answer))]
    pub fn result_in_place(
        &mut self,
        tape: &TapeResult,
        space: &mut [u8],
        check: &mut [u8],
    ) -> Result<Given, Refusal>
        ensures { answered_in self.new result space.new check.new
            ≡ result_call self.old (result_with tape.now) space.old check.old }
    {
        self.queues.check_sound()?;
        self.controller.result_in_place(tape, space, check)
    }

    /// The same by value.
    pub fn result(
        mut self,
        code: u8,
        mark: bool,
        late: u8,
        image: &[u8],
        marks: &[u8],
        space: &mut [u8],
        check: &mut [u8],
    ) -> Reply<Dispatcher, Given>
        ensures { answered result space.new check.new
            ≡ result_call self (result_of code mark late image.now marks.now)
            space.old check.old }
    {
        let tape = TapeResult {
            code,
            mark,
            late,
            image,
            marks,
        };
        let answer = self.result_in_place(&tape, space, check);
        Reply {
            state: self,
            answer,
        }
    }
}
