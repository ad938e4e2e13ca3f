//! What the bytes of a state hold: the controller alone, whose calls leave the queues as they stand, or the whole.
ghost use Rattle.std.specs.Prelude.{◌≡◌, ℕ, Bool, List};
ghost use Rattle.std.specs.Bool.{then_some};

use controller::controller::Controller;
use dispatcher::dispatcher::Dispatcher;
use layout::places::STATE_LENGTH;
use layout::reading::{controller_of, has_sound_queues, is_state, state_of};
use layout::writing::{put_controller_bytes, put_state_bytes};

pub trait Stored: Copy {
    /// whether bytes hold one
    ghost is_held: { List ℕ → Bool };

    /// the one that they hold
    ghost held: { List ℕ → Self };

    /// the bytes with this one in its place
    ghost with_put: { Self → List ℕ → List ℕ };

    /// The one that bytes hold, if they hold one.
    fn held(state: &[u8; STATE_LENGTH]) -> Option<Self>
        ensures { result ≡ then_some (is_held state.now) (held state.now) };

    /// Puts it into them.
    fn put(&self, state: &mut [u8; STATE_LENGTH])
        ensures { state.new ≡ with_put self.now state.old };
}

impl Stored for Controller {
    ghost use Rattle.layout.specs.Reading.{has_sound_queues, controller_of};
    ghost use Rattle.layout.specs.Writing.{controller_bytes};

    ghost is_held = { has_sound_queues };

    ghost held = { controller_of };

    ghost with_put = { controller_bytes };

    fn held(state: &[u8; STATE_LENGTH]) -> Option<Controller> {
        has_sound_queues(state).then(|| controller_of(state))
    }

    fn put(&self, state: &mut [u8; STATE_LENGTH]) {
        put_controller_bytes(self, state);
    }
}

impl Stored for Dispatcher {
    ghost use Rattle.layout.specs.Reading.{is_state, state_of};
    ghost use Rattle.layout.specs.Writing.{state_bytes};

    ghost is_held = { is_state };

    ghost held = { state_of };

    ghost with_put = { λ d state. state_bytes d };

    fn held(state: &[u8; STATE_LENGTH]) -> Option<Dispatcher> {
        is_state(state).then(|| state_of(state))
    }

    fn put(&self, state: &mut [u8; STATE_LENGTH]) {
        put_state_bytes(self, state);
    }
}
