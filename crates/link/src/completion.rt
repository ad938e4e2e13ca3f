//! Completion: what is sent, and how a store ends.
ghost use Rattle.std.specs.Prelude.{◌≡◌};
ghost use Rattle.link.specs.State.{left};
ghost use Rattle.link.specs.Completion.{primary_now, send_word, send_interrupt, complete};

use crate::bytes::{INTERRUPT, SECONDARY_UPDATE};
use crate::frames::Frame;
use crate::state::{Action, Body, Kind, Phase, Send};
use status::words::Word;

impl Body {
    /// Primary as the state stands.
    #[tactic(auto, unfolding(crate::specs::Completion::primary_now))]
    pub fn primary_now(self) -> Word
        ensures { result ≡ primary_now self }
    {
        let drive = self.current_drive();
        self.outcome
            .primary_of(self.changed, self.enable, self.selected, drive)
    }

    /// A status word is sent.
    #[tactic(auto, unfolding(crate::specs::Completion::send_word))]
    pub fn send_word(&self, phase: &mut Phase, kind: Kind, lead: u8, word: Word) -> Action
        ensures { left self.now phase.new result ≡ send_word self.now kind lead word }
    {
        let bytes = Frame::string_of(lead, word);
        *phase = Phase::Sending(Send {
            kind,
            bytes,
            noes: 0,
        });
        Action::Text(bytes)
    }

    // The interrupt that ends a store: secondary goes first where it is valid, else primary at once.
    #[tactic(auto, unfolding(crate::specs::Completion::send_interrupt, common::specs::Pick::pick))]
    fn send_interrupt(&self, phase: &mut Phase) -> Action
        ensures { left self.now phase.new result ≡ send_interrupt self.now }
    {
        if self.outcome.counted {
            let word = Word::secondary_word(self.outcome.result.count);
            return self.send_word(phase, Kind::Secondary, SECONDARY_UPDATE, word);
        }
        self.send_word(phase, Kind::Completion, INTERRUPT, self.primary_now())
    }

    /// The end of a store.
    #[tactic(auto, unfolding(crate::specs::Completion::complete, common::specs::Pick::pick))]
    pub fn complete(&mut self, phase: &mut Phase, asked: bool) -> Action
        ensures { left self.new phase.new result ≡ complete self.old asked }
    {
        if asked {
            self.review();
            self.enable = false;
            return self.send_interrupt(phase);
        }
        self.idle(phase, Action::Nothing)
    }
}
