//! The state: the queues of the jobs beside the controller.
ghost use Rattle.std.specs.Prelude.{◌≡◌, true, false, OnOk, IfErr};
ghost use Rattle.common.specs.declared.refusals.Refusal.TheVariants.{StateDamaged};
ghost use Rattle.dispatcher.specs.Dispatcher.{fresh_dispatcher, is_whole};

use common::refusals::Refusal;
use controller::controller::Controller;
use queues::jobs::Queues;

#[derive(Clone, Copy)]
pub struct Dispatcher {
    pub controller: Controller,
    pub queues: Queues,
}

impl Dispatcher {
    /// Nothing is queued, and the controller is fresh.
    #[tactic(auto, unfolding(crate::specs::Dispatcher::fresh_dispatcher))]
    pub fn fresh() -> Dispatcher
        ensures { result ≡ fresh_dispatcher }
    {
        Dispatcher {
            controller: Controller::fresh(),
            queues: Queues::fresh(),
        }
    }

    /// Refused where a field is out of range, of the controller or of the queues.
    #[tactic(auto, unfolding(crate::specs::Dispatcher::is_whole))]
    pub fn check_whole(&self) -> Result<(), Refusal>
        ensures whole { OnOk result (is_whole self.now ≡ true) }
        ensures damaged { IfErr result (λ refusal. (refusal ≡ StateDamaged) × (is_whole self.now ≡ false)) }
    {
        self.queues.check_sound()?;
        self.controller.check_sound()
    }
}
