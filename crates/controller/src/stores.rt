//! Stores: how what a store asks for is carried out on the state. Its course is decided first, from the store and the
//! drive's record.
ghost use Rattle.std.specs.Prelude.{◌≡◌, Ok};
ghost use Rattle.controller.specs.Told.{told_of};
ghost use Rattle.controller.specs.Controller.{carried};
ghost use Rattle.controller.specs.Stores.{settle, end_with, end_operation, motion_order, order_move};
ghost use Rattle.controller.specs.Stores.{past_test, begin, follow, clear_outcome};
ghost use Rattle.controller.specs.Stores.{carry_out_on, carry_out};

use crate::controller::{Answer, Controller};
use link::bytes::GO;
use link::frames::Frame;
use link::state::{Action, Body, Phase};
use operations::after::with_code;
use operations::codes::ILLEGAL_DRIVE;
use operations::course::{Course, course_of};
use operations::operation::Operation;
use operations::store::Store;
use status::words::Outcome;

// Secondary is set to 0 for a read, a skip and a write.
#[tactic(auto, unfolding(crate::specs::Stores::past_test, common::specs::Pick::pick))]
fn past_test(b: &mut Body, operation: Operation)
    ensures { b.new ≡ past_test b.old operation }
{
    if operation.counts_bytes() {
        b.outcome.result.count = 0;
    }
}

// Bits 2 and 8-22 of primary cleared; secondary stays.
#[tactic(auto, unfolding(crate::specs::Stores::clear_outcome))]
fn clear_outcome(b: &mut Body)
    ensures { b.new ≡ clear_outcome b.old }
{
    b.outcome = Outcome::none(b.outcome.result.count);
}

impl Controller {
    // The store is done: its record is handed back, and it is completed.
    #[tactic(auto, unfolding(crate::specs::Stores::settle))]
    fn settle(&mut self, store: Store) -> Answer
        ensures { told_of self.new (Ok result) ≡ carried (settle self.old.body store) }
    {
        let handed = Some(self.body.outcome.result);
        let action = self.body.complete(&mut self.phase, store.asks_interrupt());
        Answer { action, handed }
    }

    // A code ends the store.
    #[tactic(auto, unfolding(crate::specs::Stores::end_with))]
    fn end_with(&mut self, store: Store, code: u8) -> Answer
        ensures { told_of self.new (Ok result) ≡ carried (end_with self.old.body store code) }
    {
        self.body.outcome = with_code(self.body.outcome, code);
        self.settle(store)
    }

    /// The end of an operation with a result: EOR is offered, or the store is completed at once.
    #[tactic(auto, unfolding(crate::specs::Stores::end_operation, common::specs::Pick::pick))]
    pub fn end_operation(&mut self, operation: Operation, store: Store) -> Answer
        ensures { told_of self.new (Ok result) ≡ carried (end_operation self.old.body operation store) }
    {
        if operation.offers_end() {
            return self.offer_end(store);
        }
        self.settle(store)
    }

    // The order of an operation for the selected drive.
    #[tactic(auto, unfolding(crate::specs::Stores::motion_order))]
    fn motion_order(&self, operation: Operation, store: Store) -> Frame
        ensures { result ≡ motion_order self.now.body operation store }
    {
        let drive = self.body.current_drive();
        Frame::order_of(
            operation.order_byte(),
            self.body.selected,
            drive.track,
            drive.density,
            store.third,
            store.fourth,
        )
    }

    /// The move is ordered, and its result awaited.
    #[tactic(auto, unfolding(crate::specs::Stores::order_move))]
    pub fn order_move(&mut self, operation: Operation, store: Store) -> Answer
        ensures { told_of self.new (Ok result) ≡ carried (order_move self.old.body operation store) }
    {
        self.phase = Phase::ResultAwaited(operation, store);
        Answer::from(Action::Order(self.motion_order(operation, store)))
    }

    // An operation begins: a write offers GO, since the host's data comes before the move, and check bytes await a
    // result with no order.
    #[tactic(auto, unfolding(crate::specs::Stores::begin, common::specs::Pick::pick))]
    fn begin(&mut self, operation: Operation, store: Store) -> Answer
        ensures { told_of self.new (Ok result) ≡ carried (begin self.old.body operation store) }
    {
        past_test(&mut self.body, operation);
        match operation {
            Operation::Write => {
                self.phase = Phase::GoOffered(store);
                Answer::from(Action::Byte(GO))
            }
            Operation::CheckBytes => {
                self.phase = Phase::ResultAwaited(operation, store);
                Answer::from(Action::Nothing)
            }
            _ => self.order_move(operation, store),
        }
    }

    // A store's course is followed.
    #[tactic(auto, unfolding(crate::specs::Stores::follow))]
    fn follow(&mut self, store: Store, course: Course) -> Answer
        ensures { told_of self.new (Ok result) ≡ carried (follow self.old.body store course) }
    {
        match course {
            Course::Reset => Answer::from(self.body.reset_state(&mut self.phase)),
            Course::End(code) => self.end_with(store, code),
            Course::Enable(enable) => {
                self.body.enable = enable;
                self.settle(store)
            }
            Course::Set(drive) => {
                self.body.set_current_drive(drive);
                self.settle(store)
            }
            Course::Begin(operation) => self.begin(operation, store),
        }
    }

    // A store that selects this drive.
    #[tactic(auto, unfolding(crate::specs::Stores::carry_out_on, status::specs::Drives::drive_of))]
    fn carry_out_on(&mut self, store: Store, selected: u8) -> Answer
        ensures { told_of self.new (Ok result) ≡ carried (carry_out_on self.old.body store selected) }
    {
        let drive = self.body.drives.get(selected);
        let course = course_of(drive, store.asked_in(drive.density));
        self.body.selected = selected;
        self.follow(store, course)
    }

    /// A store is carried out.
    #[tactic(auto, unfolding(crate::specs::Stores::carry_out, crate::specs::Stores::clear_outcome, common::specs::Pick::pick))]
    pub fn carry_out(&mut self, store: Store) -> Answer
        ensures { told_of self.new (Ok result) ≡ carried (carry_out self.old.body store) }
    {
        clear_outcome(&mut self.body);
        if store.names_unknown() {
            return self.end_with(store, ILLEGAL_DRIVE);
        }
        let selected = store.selected_by(self.body.selected);
        self.carry_out_on(store, selected)
    }
}
