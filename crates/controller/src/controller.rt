//! The state, and what a call hands back.
ghost use Rattle.std.specs.Prelude.{◌≡◌, true, false, OnOk, IfErr, None};
ghost use Rattle.common.specs.declared.refusals.Refusal.TheVariants.{StateDamaged, NotIdle};
ghost use Rattle.link.specs.Damaged.{is_sound};
ghost use Rattle.controller.specs.Controller.{fresh, is_idle};
ghost use Rattle.controller.specs.Machine.{is_damaged};

use common::refusals::Refusal;
use link::state::{Action, Body, Collected, Phase};
use status::drives::fresh_drives;
use status::words::ResultRecord;

#[derive(Clone, Copy)]
pub struct Controller {
    pub body: Body,
    pub phase: Phase,
}

/// What a call that is carried out has its caller do, and the record of a store whose code it settled.
#[derive(Clone, Copy)]
pub struct Answer {
    pub action: Action,
    pub handed: Option<ResultRecord>,
}

// An action where no code is settled.
impl From<Action> for Answer {
    ghost from_gives = { λ action answer. answer ≡ record { action = action; handed = None } };

    fn from(action: Action) -> Answer {
        Answer {
            action,
            handed: None,
        }
    }
}

/// The same of a call that is lent space, and how many bytes of it the call gives (the image's, or those delivered).
#[derive(Clone, Copy)]
pub struct Given {
    pub answer: Answer,
    pub bytes: usize,
}

/// What a call hands back: the next state, which is the one that came where the call is refused, and its answer.
#[derive(Clone, Copy)]
pub struct Reply<S, A = Answer> {
    pub state: S,
    pub answer: Result<A, Refusal>,
}

impl Controller {
    /// A fresh one.
    #[tactic(auto, unfolding(crate::specs::Controller::fresh))]
    pub fn fresh() -> Controller
        ensures { result ≡ fresh }
    {
        Controller {
            body: Body::start(fresh_drives()),
            phase: Phase::Collecting(Collected::default()),
        }
    }

    /// Whether nothing is collected, and nothing offered, sent or awaited either.
    #[tactic(auto, unfolding(crate::specs::Controller::is_idle_in))]
    pub fn is_idle(self) -> bool
        ensures { result ≡ is_idle self }
    {
        matches!(self.phase, Phase::Collecting(string) if string.length == 0)
    }

    /// Whether a field of the state is out of range.
    pub fn is_damaged(self) -> bool
        ensures { result ≡ is_damaged self }
    {
        !self.body.is_sound(self.phase)
    }

    /// Refused where one is.
    pub fn check_sound(self) -> Result<(), Refusal>
        ensures sound { OnOk result (is_sound self.body self.phase ≡ true) }
        ensures damaged { IfErr result (λ refusal. (refusal ≡ StateDamaged) × (is_sound self.body self.phase ≡ false)) }
    {
        if self.body.is_sound(self.phase) {
            Ok(())
        } else {
            Err(Refusal::StateDamaged)
        }
    }

    /// Refused unless idle.
    pub fn check_idle(self) -> Result<(), Refusal>
        ensures idle { OnOk result (is_idle self ≡ true) }
        ensures busy { IfErr result (λ refusal. (refusal ≡ NotIdle) × (is_idle self ≡ false)) }
    {
        if self.is_idle() {
            Ok(())
        } else {
            Err(Refusal::NotIdle)
        }
    }
}
