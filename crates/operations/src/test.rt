//! The tape test: whether a drive may carry an operation out.
ghost use Rattle.std.specs.Prelude.{◌≡◌};
ghost use Rattle.operations.specs.Test.{is_ready, is_placed, is_ahead_free, is_behind_free, is_guarded, is_writable};
ghost use Rattle.operations.specs.Test.{may_move};

use crate::operation::Motion;
use status::drives::{
    BOT, BOT_WARNING, Drive, EOT, GAP_PROPER, INSTALLED, POSITION_UNKNOWN, PROTECTED, SELECTABLE,
};

// A tape that is there and a drive that can be selected.
fn is_ready(drive: Drive) -> bool
    ensures { result ≡ is_ready drive.report }
{
    drive.reports(INSTALLED) & drive.reports(SELECTABLE)
}

// And a known position.
fn is_placed(drive: Drive) -> bool
    ensures { result ≡ is_placed drive.report }
{
    is_ready(drive) & !drive.reports(POSITION_UNKNOWN)
}

// And tape ahead.
fn is_ahead_free(drive: Drive) -> bool
    ensures { result ≡ is_ahead_free drive.report }
{
    is_placed(drive) & !drive.reports(EOT)
}

// Or tape behind.
fn is_behind_free(drive: Drive) -> bool
    ensures { result ≡ is_behind_free drive.report }
{
    is_placed(drive) & !drive.reports(BOT)
}

// A guard against writing out of a bad gap.
fn is_guarded(drive: Drive) -> bool
    ensures { result ≡ is_guarded drive.guard drive.gap drive.report }
{
    drive.guard & !((drive.gap == GAP_PROPER) | drive.reports(BOT_WARNING))
}

// Tape ahead that may be written.
fn is_writable(drive: Drive) -> bool
    ensures { result ≡ is_writable drive.report drive.guard drive.gap }
{
    is_ahead_free(drive) & !drive.reports(PROTECTED) & !is_guarded(drive)
}

impl Motion {
    /// Whether the tape of this drive may move so.
    #[tactic(auto, unfolding(crate::specs::Test::may_move))]
    pub fn may_move(self, drive: Drive) -> bool
        ensures { result ≡ may_move self drive.report drive.guard drive.gap }
    {
        match self {
            Motion::Still => true,
            Motion::Forward => is_ahead_free(drive),
            Motion::Reverse => is_behind_free(drive),
            Motion::Rewinding => is_ready(drive),
            Motion::Winding => is_ready(drive),
            Motion::Writing => is_writable(drive),
            Motion::Erasing => is_writable(drive),
        }
    }
}
