//! Loads: which word a load asks for, and its reply.
ghost use Rattle.std.specs.Prelude.{◌≡◌};
ghost use Rattle.link.specs.State.{left};
ghost use Rattle.link.specs.Loads.{load_word, carry_out_load};

use crate::bytes::{DEVICE_ID, LOAD_REPLY};
use crate::state::{Action, Body, Kind, Phase};
use status::words::Word;

impl Body {
    // By the operation, address bits 1-3; 6 and 7 are not asked.
    #[tactic(auto, unfolding(crate::specs::Loads::load_word, common::specs::Pick::pick))]
    fn load_word(self, operation: u8) -> Word
        ensures { result ≡ load_word self operation }
    {
        match operation {
            0 => DEVICE_ID,
            1 => self.primary_now(),
            2 => Word::secondary_word(self.outcome.result.count),
            3 => self.tertiary,
            4 => Word::reports_word(self.drives),
            _ => self.quintary,
        }
    }

    /// A load is carried out: its word is sent, or there is no reply.
    #[tactic(auto, unfolding(crate::specs::Loads::carry_out_load, common::specs::Pick::pick))]
    pub fn carry_out_load(&mut self, phase: &mut Phase, address: u8) -> Action
        ensures { left self.new phase.new result ≡ carry_out_load self.old address }
    {
        let operation = address / 16 % 8;
        match operation {
            6 | 7 => self.idle(phase, Action::Nothing),
            _ => self.send_word(phase, Kind::Load, LOAD_REPLY, self.load_word(operation)),
        }
    }
}
