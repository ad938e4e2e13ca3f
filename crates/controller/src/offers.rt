//! The EOR that ends an operation, and the host's answers to GO.
ghost use Rattle.std.specs.Prelude.{◌≡◌, Ok};
ghost use Rattle.controller.specs.Told.{told_of};
ghost use Rattle.controller.specs.Controller.{carried};
ghost use Rattle.controller.specs.Stores.{offer_end, no_to_go, answer_to_go};

use crate::controller::{Answer, Controller};
use link::bytes::{ACK, END_OF_RECORD};
use link::state::{Action, Phase};
use operations::after::with_code;
use operations::codes::NO_GO;
use operations::store::Store;

impl Controller {
    /// EOR is offered: the code is settled, and the store's record handed back.
    pub fn offer_end(&mut self, store: Store) -> Answer
        ensures { told_of self.new (Ok result) ≡ carried (offer_end self.old.body store) }
    {
        self.phase = Phase::EndOffered(store.asks_interrupt());
        Answer {
            action: Action::Byte(END_OF_RECORD),
            handed: Some(self.body.outcome.result),
        }
    }

    /// GO is answered by a no: EOR is offered.
    #[tactic(auto, unfolding(crate::specs::Stores::no_to_go))]
    pub fn no_to_go(&mut self, store: Store) -> Answer
        ensures { told_of self.new (Ok result) ≡ carried (no_to_go self.old.body store) }
    {
        self.body.outcome = with_code(self.body.outcome, NO_GO);
        self.offer_end(store)
    }

    /// A byte that answers GO: by a yes, and the data call is awaited, or by a no.
    #[tactic(auto, unfolding(crate::specs::Stores::answer_to_go, crate::specs::Stores::yes_to_go, common::specs::Pick::pick))]
    pub fn answer_to_go(&mut self, byte: u8, store: Store) -> Answer
        ensures { told_of self.new (Ok result) ≡ carried (answer_to_go self.old.body byte store) }
    {
        if byte == ACK {
            self.phase = Phase::DataAwaited(store);
            return Answer::from(Action::Nothing);
        }
        self.no_to_go(store)
    }
}
