//! The calls that are lent nothing: byte, broken, tick, hand, taken, report and reset. Each refuses a damaged state,
//! then goes by the phase. Each has two forms: in place, and by value, which hands the next state back.
ghost use Rattle.std.specs.Prelude.{◌≡◌, Ok};
ghost use Rattle.controller.specs.Told.{told, told_of};
ghost use Rattle.controller.specs.Controller.{carried};
ghost use Rattle.controller.specs.Machine.{carry_out_string, byte_call, broken_call, tick_call, taken_call};
ghost use Rattle.controller.specs.Machine.{report_call, reset_call, hand_call};

use crate::controller::{Answer, Controller, Reply};
use common::refusals::Refusal;
use link::bytes::LOAD_LEAD;
use link::state::{Action, Collected, Phase};
use operations::store::{DRIVES, Store};

// In place. A call that is refused leaves the state as it is.
impl Controller {
    // The string whose ACK is taken is carried out: a load or a store, by its lead.
    #[tactic(auto, unfolding(crate::specs::Machine::carry_out_string, common::specs::Pick::pick))]
    fn carry_out_string(&mut self, string: Collected) -> Answer
        ensures { told_of self.new (Ok result) ≡ carried (carry_out_string self.old.body string) }
    {
        if string.c0 == LOAD_LEAD {
            return Answer::from(self.body.carry_out_load(&mut self.phase, string.c1));
        }
        self.carry_out(string.store())
    }

    /// A byte from the host.
    #[tactic(auto, using(link::proofs::SoundLaws::collecting_short, link::proofs::SoundLaws::noes_few), unfolding(crate::specs::Machine::byte_in, crate::specs::Machine::byte_call, common::specs::Pick::pick))]
    pub fn byte_in_place(&mut self, byte: u8) -> Result<Answer, Refusal>
        ensures { told_of self.new result ≡ byte_call self.old byte }
    {
        self.check_sound()?;
        let action = match self.phase {
            Phase::Collecting(string) => self.body.collect_byte(&mut self.phase, string, byte),
            Phase::AckOffered(_) => self.body.idle(&mut self.phase, Action::Nothing),
            Phase::Sending(send) => self.body.answer_to_send(&mut self.phase, byte, send),
            Phase::GoOffered(store) => return Ok(self.answer_to_go(byte, store)),
            Phase::EndOffered(interrupt) => self.body.complete(&mut self.phase, interrupt),
            _ => return Err(Refusal::LinkNotAwaited),
        };
        Ok(Answer::from(action))
    }

    /// The link is broken.
    #[tactic(auto, unfolding(crate::specs::Machine::broken_in, crate::specs::Machine::broken_call, common::specs::Pick::pick))]
    pub fn broken_in_place(&mut self) -> Result<Answer, Refusal>
        ensures { told_of self.new result ≡ broken_call self.old }
    {
        self.check_sound()?;
        let action = match self.phase {
            Phase::Collecting(_) | Phase::AckOffered(_) => self
                .body
                .idle(&mut self.phase, Action::Nothing),
            Phase::Sending(send) => self.body.give_up(&mut self.phase, send.kind),
            Phase::GoOffered(store) => return Ok(self.no_to_go(store)),
            Phase::EndOffered(interrupt) => self.body.complete(&mut self.phase, interrupt),
            _ => return Err(Refusal::LinkNotAwaited),
        };
        Ok(Answer::from(action))
    }

    /// A tick, while idle.
    #[tactic(auto, using(crate::proofs::IdleLaws::tick_by_idle), unfolding(crate::specs::Machine::tick_call, common::specs::Pick::pick))]
    pub fn tick_in_place(&mut self) -> Result<Answer, Refusal>
        ensures { told_of self.new result ≡ tick_call self.old }
    {
        self.check_sound()?;
        self.check_idle()?;
        Ok(Answer::from(self.body.idle_tick(&mut self.phase)))
    }

    /// A store is handed over, while idle, and carried out.
    #[tactic(auto, using(crate::proofs::IdleLaws::hand_by_idle), unfolding(crate::specs::Machine::hand_call, common::specs::Pick::pick))]
    pub fn hand_in_place(&mut self, store: Store) -> Result<Answer, Refusal>
        ensures { told_of self.new result ≡ hand_call self.old store }
    {
        self.check_sound()?;
        self.check_idle()?;
        Ok(self.carry_out(store))
    }

    /// The ACK that was offered is taken.
    #[tactic(auto, unfolding(crate::specs::Machine::taken_in, crate::specs::Machine::taken_call, common::specs::Pick::pick))]
    pub fn taken_in_place(&mut self) -> Result<Answer, Refusal>
        ensures { told_of self.new result ≡ taken_call self.old }
    {
        self.check_sound()?;
        let Phase::AckOffered(string) = self.phase else {
            return Err(Refusal::LinkNotAwaited);
        };
        Ok(self.carry_out_string(string))
    }

    /// A drive reports.
    #[tactic(auto, unfolding(crate::specs::Machine::report_call, common::specs::Pick::pick))]
    pub fn report_in_place(&mut self, drive: u8, report: u8) -> Result<Answer, Refusal>
        ensures { told_of self.new result ≡ report_call self.old drive report }
    {
        self.check_sound()?;
        if DRIVES <= drive {
            return Err(Refusal::NoSuchDrive);
        }
        self.body.note_report(drive, report);
        Ok(Answer::from(Action::Nothing))
    }

    /// A reset.
    #[tactic(auto, unfolding(crate::specs::Machine::reset_call, common::specs::Pick::pick))]
    pub fn reset_in_place(&mut self) -> Result<Answer, Refusal>
        ensures { told_of self.new result ≡ reset_call self.old }
    {
        self.check_sound()?;
        Ok(Answer::from(self.body.reset_state(&mut self.phase)))
    }
}

// By value.
impl Controller {
    /// A byte from the host.
    pub fn byte(mut self, byte: u8) -> Reply<Controller>
        ensures { told result ≡ byte_call self byte }
    {
        let answer = self.byte_in_place(byte);
        Reply {
            state: self,
            answer,
        }
    }

    /// The link is broken.
    pub fn broken(mut self) -> Reply<Controller>
        ensures { told result ≡ broken_call self }
    {
        let answer = self.broken_in_place();
        Reply {
            state: self,
            answer,
        }
    }

    /// A tick, while idle.
    pub fn tick(mut self) -> Reply<Controller>
        ensures { told result ≡ tick_call self }
    {
        let answer = self.tick_in_place();
        Reply {
            state: self,
            answer,
        }
    }

    /// A store is handed over, while idle, and carried out.
    pub fn hand(mut self, store: Store) -> Reply<Controller>
        ensures { told result ≡ hand_call self store }
    {
        let answer = self.hand_in_place(store);
        Reply {
            state: self,
            answer,
        }
    }

    /// The ACK that was offered is taken.
    pub fn taken(mut self) -> Reply<Controller>
        ensures { told result ≡ taken_call self }
    {
        let answer = self.taken_in_place();
        Reply {
            state: self,
            answer,
        }
    }

    /// A drive reports.
    pub fn report(mut self, drive: u8, report: u8) -> Reply<Controller>
        ensures { told result ≡ report_call self drive report }
    {
        let answer = self.report_in_place(drive, report);
        Reply {
            state: self,
            answer,
        }
    }

    /// A reset.
    pub fn reset(mut self) -> Reply<Controller>
        ensures { told result ≡ reset_call self }
    {
        let answer = self.reset_in_place();
        Reply {
            state: self,
            answer,
        }
    }
}
