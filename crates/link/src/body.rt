//! The body of the state: the selected drive, reports and review, start and reset, and collecting. A step that ends in
//! another phase is lent the phase beside the body, and returns what it has the controller do.
ghost use Rattle.std.specs.Prelude.{◌≡◌};
ghost use Rattle.link.specs.State.{current_drive, with_current_drive, note_report, review, start_body};
ghost use Rattle.link.specs.State.{left, reset_state, idle};

use crate::state::{Action, Body, Collected, Phase};
use status::drives::{Drive, Drives, any_differs, copy_reports, reset_drives};
use status::words::{Outcome, Word};

impl Body {
    /// The start, with these drives.
    #[tactic(auto, unfolding(crate::specs::State::start_body))]
    pub fn start(drives: Drives) -> Body
        ensures { result ≡ start_body drives }
    {
        Body {
            drives,
            selected: 0,
            changed: true,
            enable: false,
            outcome: Outcome::none(0),
            tertiary: Word::default(),
            quintary: Word::default(),
        }
    }

    /// The record of the selected drive.
    #[tactic(auto, unfolding(status::specs::Drives::drive_of))]
    pub fn current_drive(self) -> Drive
        ensures { result ≡ current_drive self }
    {
        self.drives.get(self.selected)
    }

    /// Another record for the selected drive.
    #[tactic(auto, unfolding(status::specs::Drives::with_drive))]
    pub fn set_current_drive(&mut self, drive: Drive)
        ensures { self.new ≡ with_current_drive self.old drive }
    {
        self.drives = self.drives.with(self.selected, drive);
    }

    /// A new report of one of the drives.
    #[tactic(auto, unfolding(status::specs::Drives::drive_of, status::specs::Drives::with_drive))]
    pub fn note_report(&mut self, number: u8, report: u8)
        ensures { self.new ≡ note_report self.old number report }
    {
        let drive = self.drives.get(number).with_report(report);
        self.drives = self.drives.with(number, drive);
    }

    /// Changed is set if a report differs from its copy; all four are copied.
    #[tactic(auto, unfolding(crate::specs::State::review))]
    pub fn review(&mut self)
        ensures { self.new ≡ review self.old }
    {
        self.changed |= any_differs(self.drives);
        copy_reports(&mut self.drives);
    }

    /// Reset, then collecting.
    #[tactic(auto, unfolding(crate::specs::State::reset_state))]
    pub fn reset_state(&mut self, phase: &mut Phase) -> Action
        ensures { left self.new phase.new result ≡ reset_state self.old }
    {
        *self = Body::start(reset_drives(self.drives));
        *phase = Phase::Collecting(Collected::default());
        Action::Nothing
    }

    /// Review, then collecting, with nothing collected.
    #[tactic(auto, unfolding(crate::specs::State::idle))]
    pub fn idle(&mut self, phase: &mut Phase, action: Action) -> Action
        ensures { left self.new phase.new result ≡ idle self.old action }
    {
        self.review();
        *phase = Phase::Collecting(Collected::default());
        action
    }
}
