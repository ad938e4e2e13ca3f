//! Collecting: the bytes of a string from the host, and a tick while nothing is collected.
ghost use Rattle.std.specs.Prelude.{◌≡◌, ◌<◌};
ghost use Rattle.link.specs.Bytes.{store_length};
ghost use Rattle.link.specs.State.{left};
ghost use Rattle.link.specs.Link.{whole_length, append_byte, load_xor, is_good_string, first_byte, last_byte};
ghost use Rattle.link.specs.Link.{next_byte, collect_byte, idle_tick};

use crate::bytes::{ACK, INTERRUPT, LOAD_LEAD, LOAD_LENGTH, NACK, STORE_LEAD, STORE_LENGTH};
use crate::state::{Action, Body, Collected, Kind, Phase};

/// How many bytes a string with this lead has.
#[tactic(auto, unfolding(crate::specs::Link::whole_length, common::specs::Pick::pick))]
pub fn whole_length(lead: u8) -> u8
    ensures { result ≡ whole_length lead }
{
    if lead == LOAD_LEAD {
        LOAD_LENGTH
    } else {
        STORE_LENGTH
    }
}

impl Collected {
    // One byte more.
    #[tactic(auto, unfolding(crate::specs::Link::append_byte, common::specs::Pick::pick))]
    fn append_byte(&mut self, byte: u8)
        requires { self.old.length < store_length }
        ensures { self.new ≡ append_byte self.old byte }
    {
        let at = self.length;
        self.length = at + 1;
        match at {
            0 => self.c0 = byte,
            1 => self.c1 = byte,
            2 => self.c2 = byte,
            3 => self.c3 = byte,
            4 => self.c4 = byte,
            5 => self.c5 = byte,
            6 => self.c6 = byte,
            _ => self.c7 = byte,
        }
    }

    // The XOR of a load's bytes.
    #[tactic(auto, unfolding(crate::specs::Link::load_xor))]
    fn load_xor(self) -> u8
        ensures { result ≡ load_xor self }
    {
        self.c0 ^ self.c1 ^ self.c2 ^ self.c3
    }

    // Whether a whole string is good: all its bytes XOR to 0.
    #[tactic(auto, unfolding(crate::specs::Link::is_good_string, common::specs::Pick::pick))]
    fn is_good_string(self) -> bool
        ensures { result ≡ is_good_string self }
    {
        let four = self.load_xor();
        if self.c0 == LOAD_LEAD {
            return four == 0;
        }
        four ^ self.c4 ^ self.c5 ^ self.c6 ^ self.c7 == 0
    }
}

impl Body {
    // The first byte of a string, or one that begins none.
    #[tactic(auto, unfolding(crate::specs::Link::first_byte, common::specs::Pick::pick))]
    fn first_byte(&mut self, phase: &mut Phase, s: Collected, byte: u8) -> Action
        ensures { left self.new phase.new result ≡ first_byte self.old s byte }
    {
        if (byte == LOAD_LEAD) | (byte == STORE_LEAD) {
            let mut begun = Collected::default();
            begun.append_byte(byte);
            *phase = Phase::Collecting(begun);
            return Action::Nothing;
        }
        if byte == NACK {
            *phase = Phase::Collecting(s);
            return Action::Nothing;
        }
        self.idle(phase, Action::Byte(NACK))
    }

    // A whole string: ACK is offered, or NACK answers.
    #[tactic(auto, unfolding(crate::specs::Link::last_byte, common::specs::Pick::pick))]
    fn last_byte(&mut self, phase: &mut Phase, s: Collected) -> Action
        ensures { left self.new phase.new result ≡ last_byte self.old s }
    {
        if s.is_good_string() {
            *phase = Phase::AckOffered(s);
            return Action::Byte(ACK);
        }
        self.idle(phase, Action::Byte(NACK))
    }

    // A further byte of a string.
    #[tactic(auto, unfolding(crate::specs::Link::next_byte, common::specs::Pick::pick))]
    fn next_byte(&mut self, phase: &mut Phase, mut s: Collected, byte: u8) -> Action
        requires { s.length < store_length }
        ensures { left self.new phase.new result ≡ next_byte self.old s byte }
    {
        let last = s.length + 1 == whole_length(s.c0);
        s.append_byte(byte);
        if last {
            return self.last_byte(phase, s);
        }
        *phase = Phase::Collecting(s);
        Action::Nothing
    }

    /// A byte while collecting: the first of a string, or a further one.
    #[tactic(auto, unfolding(crate::specs::Link::collect_byte, common::specs::Pick::pick))]
    pub fn collect_byte(&mut self, phase: &mut Phase, s: Collected, byte: u8) -> Action
        requires { s.length < store_length }
        ensures { left self.new phase.new result ≡ collect_byte self.old s byte }
    {
        if s.length == 0 {
            return self.first_byte(phase, s, byte);
        }
        self.next_byte(phase, s, byte)
    }

    /// A tick while nothing is collected: a review, and the interrupt of a drive that changed where it is enabled.
    #[tactic(auto, unfolding(crate::specs::Link::idle_tick, crate::specs::Link::tick_after_review, common::specs::Pick::pick))]
    pub fn idle_tick(&mut self, phase: &mut Phase) -> Action
        ensures { left self.new phase.new result ≡ idle_tick self.old phase.old }
    {
        self.review();
        if self.changed & self.enable {
            let word = self.primary_now();
            return self.send_word(phase, Kind::Change, INTERRUPT, word);
        }
        Action::Nothing
    }
}
