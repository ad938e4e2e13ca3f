//! The four drives.
ghost use Rattle.std.specs.Prelude.{◌≡◌, ◌≤◌};
ghost use Rattle.status.specs.Drives.{reports, with_report, with_gap, with_track, with_density, with_guard, is_gcr};
ghost use Rattle.status.specs.Drives.{any_differs, copy_report, copy_reports, fresh_with, fresh_drives, reset_drives};

use common::four::Four;

/// The last of the four drives, and the last track of a tape.
pub const LAST_DRIVE: u8 = 3;

pub const LAST_TRACK: u8 = 3;

/// The bits of a report.
pub const EOT: u8 = 128;

pub const EOT_WARNING: u8 = 64;

pub const INSTALLED: u8 = 32;

pub const BOT_WARNING: u8 = 16;

pub const PROTECTED: u8 = 8;

pub const POSITION_UNKNOWN: u8 = 4;

pub const SELECTABLE: u8 = 2;

pub const BOT: u8 = 1;

/// How the tape stands in the gap between two records.
pub const GAP_PROPER: u8 = 0;

pub const GAP_IMPROPER: u8 = 1;

/// after a write that failed
pub const GAP_UNFINISHED: u8 = 2;

/// nobody knows where the tape is
pub const GAP_LOST: u8 = 3;

/// The densities.
pub const MFM: u8 = 0;

pub const GCR: u8 = 1;

/// A drive's report, the copy that the last review took of it, its track (0-3), density and gap, and whether writing
/// out of a bad gap is guarded against.
#[derive(Clone, Copy)]
pub struct Drive {
    pub report: u8,
    pub reviewed: u8,
    pub track: u8,
    pub density: u8,
    pub gap: u8,
    pub guard: bool,
}

/// The four, by their numbers.
pub type Drives = Four<Drive>;

impl Drive {
    // A drive as it starts, but for its report.
    fn fresh_with(report: u8) -> Drive
        ensures { result ≡ fresh_with report }
    {
        Drive {
            report,
            reviewed: report,
            track: 0,
            density: MFM,
            gap: GAP_LOST,
            guard: false,
        }
    }

    /// Whether its report has this bit.
    #[tactic(auto, unfolding(crate::specs::Drives::reports))]
    pub fn reports(self, bit: u8) -> bool
        requires { 1 ≤ bit }
        ensures { result ≡ reports self.report bit }
    {
        self.report / bit % 2 == 1
    }

    // Its report, copied as reviewed.
    fn copy_report(&mut self)
        ensures { self.new ≡ copy_report self.old }
    {
        self.reviewed = self.report;
    }

    /// With another gap.
    pub fn with_gap(self, gap: u8) -> Drive
        ensures { result ≡ with_gap self gap }
    {
        Drive { gap, ..self }
    }

    /// With a new report; where no tape is installed its gap is lost.
    #[tactic(auto, unfolding(crate::specs::Drives::with_report, common::specs::Pick::pick))]
    pub fn with_report(self, report: u8) -> Drive
        ensures { result ≡ with_report self report }
    {
        let drive = Drive { report, ..self };
        if drive.reports(INSTALLED) {
            drive
        } else {
            drive.with_gap(GAP_LOST)
        }
    }

    /// With a track selected. The gap of a new track is proper at the beginning of tape, else lost.
    #[tactic(auto, unfolding(crate::specs::Drives::with_track, common::specs::Pick::pick))]
    pub fn with_track(self, track: u8) -> Drive
        ensures { result ≡ with_track self track }
    {
        if self.track == track {
            return self;
        }
        let gap = if self.reports(BOT) {
            GAP_PROPER
        } else {
            GAP_LOST
        };
        Drive { track, gap, ..self }
    }

    /// With a density selected.
    pub fn with_density(self, density: u8) -> Drive
        ensures { result ≡ with_density self density }
    {
        Drive { density, ..self }
    }

    /// With its guard cleared or set.
    pub fn with_guard(self, guard: bool) -> Drive
        ensures { result ≡ with_guard self guard }
    {
        Drive { guard, ..self }
    }

    /// Whether it is set to GCR.
    pub fn is_gcr(self) -> bool
        ensures { result ≡ is_gcr self }
    {
        self.density != MFM
    }
}

/// Whether any report differs from its copy.
#[tactic(auto, unfolding(crate::specs::Drives::any_differs))]
pub fn any_differs(drives: Drives) -> bool
    ensures { result ≡ any_differs drives }
{
    !drives.all(|drive| drive.report == drive.reviewed)
}

/// All four reports copied.
#[tactic(auto, unfolding(crate::specs::Drives::copy_reports))]
pub fn copy_reports(drives: &mut Drives)
    ensures { drives.new ≡ copy_reports drives.old }
{
    drives.zero.copy_report();
    drives.one.copy_report();
    drives.two.copy_report();
    drives.three.copy_report();
}

/// All four as they start.
#[tactic(auto, unfolding(crate::specs::Drives::fresh_drives))]
pub fn fresh_drives() -> Drives
    ensures { result ≡ fresh_drives }
{
    let fresh = Drive::fresh_with(POSITION_UNKNOWN);
    Four {
        zero: fresh,
        one: fresh,
        two: fresh,
        three: fresh,
    }
}

/// All four after a reset, which keeps the reports.
#[tactic(auto, unfolding(crate::specs::Drives::reset_drives))]
pub fn reset_drives(drives: Drives) -> Drives
    ensures { result ≡ reset_drives drives }
{
    drives.map(|drive| Drive::fresh_with(drive.report))
}
