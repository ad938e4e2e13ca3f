//! The view of a lent slice of records.
ghost use Rattle.std.specs.Prelude.{◌≡◌, length, OnOk};
ghost use Rattle.common.specs.Told.{refusal_number};
ghost use Rattle.views.specs.View.{codes_of, view_refusal, Admitted, moving_view, moving_view_into};
ghost use Rattle.views.specs.Told.{told};

use crate::limits::{RUN_LIMIT, STRETCH_BYTES, WIDTH_LIMIT};
use crate::window::Window;
use common::refusals::Refusal;
use status::words::ResultRecord;

/// What a view answers: how many stretches there are, and the first with most codes 16, where there is one at all. The
/// bytes of the stretches are in the lent space.
#[derive(Clone, Copy, Debug, PartialEq, Eq)]
pub struct View {
    pub stretches: usize,
    pub first: Option<usize>,
}

// Whether a view is refused: of a width, of so many records, with so much space.
#[tactic(auto, unfolding(crate::specs::View::view_refusal, common::specs::Pick::pick, crate::specs::View::stretch_count))]
fn check_view(width: usize, count: usize, room: usize) -> Result<(), Refusal>
    ensures refused { refusal_number result ≡ view_refusal width count room }
    ensures admitted { OnOk result (Admitted width count room) }
{
    if !(1..=WIDTH_LIMIT).contains(&width) {
        return Err(Refusal::WidthOutOfRange);
    }
    if RUN_LIMIT < count {
        return Err(Refusal::RunTooLong);
    }
    if room < STRETCH_BYTES * (count + 1).saturating_sub(width) {
        return Err(Refusal::SpaceShort);
    }
    Ok(())
}

/// The one function over a lent slice of records; all that it does is done by the covered ones.
#[tactic(auto)]
pub fn moving_view(run: &[ResultRecord], width: usize, out: &mut [u8]) -> Result<View, Refusal>
    ensures answered { told result ≡ moving_view width (codes_of run.now) (length out.old) }
    ensures written { out.new ≡ moving_view_into width (codes_of run.now) out.old }
{
    check_view(width, run.len(), out.len())?;
    let mut window = Window::open(width);
    for record in run {
        window.step(record.code, out);
    }
    Ok(window.view())
}
