//! The host's answers to a string that was sent, and how a send ends.
ghost use Rattle.std.specs.Prelude.{◌≡◌, ◌≤◌};
ghost use Rattle.link.specs.Bytes.{most_noes};
ghost use Rattle.link.specs.State.{left};
ghost use Rattle.link.specs.Link.{yes_to_send, give_up, no_to_send, answer_to_send};

use crate::bytes::{ACK, INTERRUPT, MOST_NOES};
use crate::state::{Action, Body, Kind, Phase, Send};

impl Body {
    // A sent string is accepted.
    #[tactic(auto, unfolding(crate::specs::Link::yes_to_send))]
    fn yes_to_send(&mut self, phase: &mut Phase, kind: Kind) -> Action
        ensures { left self.new phase.new result ≡ yes_to_send self.old kind }
    {
        match kind {
            Kind::Load => self.idle(phase, Action::Nothing),
            Kind::Secondary => {
                self.send_word(phase, Kind::Completion, INTERRUPT, self.primary_now())
            }
            Kind::Completion => {
                self.changed = false;
                self.idle(phase, Action::Nothing)
            }
            Kind::Change => {
                self.changed = false;
                self.enable = false;
                self.idle(phase, Action::Nothing)
            }
        }
    }

    /// A send is given up: changed stays, and the interrupt of a change clears enable.
    #[tactic(auto, unfolding(crate::specs::Link::give_up))]
    pub fn give_up(&mut self, phase: &mut Phase, kind: Kind) -> Action
        ensures { left self.new phase.new result ≡ give_up self.old kind }
    {
        if matches!(kind, Kind::Change) {
            self.enable = false;
        }
        self.idle(phase, Action::Nothing)
    }

    // A sent string is answered by a no: the same bytes go again, or the send is given up after the fifth.
    #[tactic(auto, unfolding(crate::specs::Link::no_to_send, common::specs::Pick::pick))]
    fn no_to_send(&mut self, phase: &mut Phase, send: Send) -> Action
        requires { send.noes ≤ most_noes }
        ensures { left self.new phase.new result ≡ no_to_send self.old send }
    {
        if send.noes == MOST_NOES {
            return self.give_up(phase, send.kind);
        }
        *phase = Phase::Sending(Send {
            noes: send.noes + 1,
            ..send
        });
        Action::Text(send.bytes)
    }

    /// A byte that answers a sent string.
    #[tactic(auto, unfolding(crate::specs::Link::answer_to_send, common::specs::Pick::pick))]
    pub fn answer_to_send(&mut self, phase: &mut Phase, byte: u8, send: Send) -> Action
        requires { send.noes ≤ most_noes }
        ensures { left self.new phase.new result ≡ answer_to_send self.old byte send }
    {
        if byte == ACK {
            return self.yes_to_send(phase, send.kind);
        }
        self.no_to_send(phase, send)
    }
}
