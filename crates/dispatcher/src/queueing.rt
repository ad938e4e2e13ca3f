//! The dispatcher's own calls: a job queues a store, and the store whose turn it is is handed over.
ghost use Rattle.std.specs.Prelude.{true, ◌≡◌};
ghost use Rattle.common.specs.Told.{refusal_number};
ghost use Rattle.queues.specs.Jobs.{waits};
ghost use Rattle.dispatcher.specs.Told.{told, told_of};
ghost use Rattle.dispatcher.specs.Dispatcher.{is_reset_store, queue_refusal, queue_call, hand_over, hand_call};

use crate::dispatcher::Dispatcher;
use common::refusals::Refusal;
use controller::controller::{Answer, Reply};
use link::state::Action;
use operations::decode::Decoded;
use operations::store::Store;
use queues::jobs::JOBS;
use queues::queue::QUEUE_LIMIT;

// Whether a store is one of operation 0.
#[tactic(auto, unfolding(controller::specs::Separation::asks_reset, crate::specs::Dispatcher::is_reset_store))]
fn is_reset_store(store: Store) -> bool
    ensures { result ≡ is_reset_store store }
{
    matches!(store.asked_for(), Decoded::Reset)
}

impl Dispatcher {
    // Refused with 1, 16 or 17, or not.
    #[tactic(auto, unfolding(crate::specs::Dispatcher::queue_refusal, common::specs::Pick::pick))]
    fn check_queue(&self, job: u8, store: Store) -> Result<(), Refusal>
        ensures { refusal_number result ≡ queue_refusal self.now job store }
    {
        self.check_whole()?;
        if (JOBS <= job) | !store.names_drive() | is_reset_store(store) {
            return Err(Refusal::StoreNotTaken);
        }
        if QUEUE_LIMIT <= self.queues.queue_of(job).length {
            return Err(Refusal::QueueFull);
        }
        Ok(())
    }

    /// A job queues a store, in place.
    #[tactic(auto, using(common::proofs::PickLaws::pick_yes, common::proofs::PickLaws::pick_no, common::proofs::RefusalLaws::refused_not_done, crate::proofs::Laws::queue_room), unfolding(crate::specs::Dispatcher::queue_call, common::specs::Pick::pick))]
    pub fn queue_in_place(&mut self, job: u8, store: Store) -> Result<Answer, Refusal>
        ensures { told_of self.new result ≡ queue_call self.old job store }
    {
        self.check_queue(job, store)?;
        self.queues = self.queues.queued(job, store);
        Ok(Answer::from(Action::Nothing))
    }

    /// The same by value.
    pub fn queue(mut self, job: u8, store: Store) -> Reply<Dispatcher>
        ensures { told result ≡ queue_call self job store }
    {
        let answer = self.queue_in_place(job, store);
        Reply {
            state: self,
            answer,
        }
    }

    // The store of the job whose turn it is goes to the controller, and its place is free.
    #[tactic(auto, using(crate::proofs::ToldLaws::told_beside), unfolding(crate::specs::Dispatcher::hand_over))]
    fn hand_over(&mut self, job: u8) -> Result<Answer, Refusal>
        requires { waits self.old.queues job ≡ true }
        ensures { told_of self.new result ≡ hand_over self.old job }
    {
        let store = self.queues.next_store(job);
        self.queues = self.queues.served(job);
        self.controller.hand_in_place(store)
    }

    /// The next store is handed over, in place; where nothing is queued, nothing is done.
    #[tactic(auto, using(common::proofs::PickLaws::pick_yes, common::proofs::PickLaws::pick_no, queues::proofs::JobLaws::turn_served, crate::proofs::Laws::whole_ranges), unfolding(crate::specs::Dispatcher::hand_call, crate::specs::Dispatcher::hand_turn))]
    pub fn hand_in_place(&mut self) -> Result<Answer, Refusal>
        ensures { told_of self.new result ≡ hand_call self.old }
    {
        self.check_whole()?;
        self.controller.check_idle()?;
        match self.queues.turn_of() {
            None => Ok(Answer::from(Action::Nothing)),
            Some(job) => self.hand_over(job),
        }
    }

    /// The same by value.
    pub fn hand(mut self) -> Reply<Dispatcher>
        ensures { told result ≡ hand_call self }
    {
        let answer = self.hand_in_place();
        Reply {
            state: self,
            answer,
        }
    }
}
