//! The test of a damaged state: refusal 1.
ghost use Rattle.std.specs.Prelude.{◌≡◌};
ghost use Rattle.link.specs.Damaged.{sound_drive, sound_drives, sound_body, sound_lead, sound_part, sound_string};
ghost use Rattle.link.specs.Damaged.{sound_phase, is_sound};

use crate::bytes::{LOAD_LEAD, MOST_NOES, STORE_LEAD};
use crate::collecting::whole_length;
use crate::state::{Body, Collected, Phase};
use status::drives::{Drive, Drives, GAP_LOST, GCR, LAST_DRIVE, LAST_TRACK};
use status::words::{COUNT_LIMIT, LAST_CODE, LAST_MOTION};

#[tactic(auto, unfolding(crate::specs::Damaged::sound_drive))]
fn sound_drive(d: Drive) -> bool
    ensures { result ≡ sound_drive d }
{
    (d.track <= LAST_TRACK) & ((d.gap <= GAP_LOST) & (d.density <= GCR))
}

#[tactic(auto, unfolding(crate::specs::Damaged::sound_drives))]
fn sound_drives(d: Drives) -> bool
    ensures { result ≡ sound_drives d }
{
    d.all(|drive| sound_drive(drive))
}

impl Body {
    #[tactic(auto, unfolding(crate::specs::Damaged::sound_body))]
    fn sound_body(self) -> bool
        ensures { result ≡ sound_body self }
    {
        sound_drives(self.drives)
            & ((self.selected <= LAST_DRIVE)
                & ((self.outcome.result.motion <= LAST_MOTION)
                    & ((self.outcome.result.code <= LAST_CODE)
                        & (self.outcome.result.count <= COUNT_LIMIT))))
    }
}

impl Collected {
    // A string begins with the lead of a load or of a store.
    #[tactic(auto, unfolding(crate::specs::Damaged::sound_lead))]
    fn sound_lead(self) -> bool
        ensures { result ≡ sound_lead self }
    {
        (self.c0 == LOAD_LEAD) | (self.c0 == STORE_LEAD)
    }

    // A string that is being collected.
    #[tactic(auto, unfolding(crate::specs::Damaged::sound_part))]
    fn sound_part(self) -> bool
        ensures { result ≡ sound_part self }
    {
        (self.length == 0) | (self.sound_lead() & (self.length < whole_length(self.c0)))
    }

    // A whole string.
    #[tactic(auto, unfolding(crate::specs::Damaged::sound_string))]
    fn sound_string(self) -> bool
        ensures { result ≡ sound_string self }
    {
        self.sound_lead() & (self.length == whole_length(self.c0))
    }
}

impl Phase {
    #[tactic(auto, unfolding(crate::specs::Damaged::sound_phase))]
    fn sound_phase(self) -> bool
        ensures { result ≡ sound_phase self }
    {
        match self {
            Phase::Collecting(s) => s.sound_part(),
            Phase::AckOffered(s) => s.sound_string(),
            Phase::Sending(send) => send.noes <= MOST_NOES,
            _ => true,
        }
    }
}

impl Body {
    /// Whether no field is out of range.
    #[tactic(auto, unfolding(crate::specs::Damaged::is_sound))]
    pub fn is_sound(self, phase: Phase) -> bool
        ensures { result ≡ is_sound self phase }
    {
        self.sound_body() & phase.sound_phase()
    }
}
