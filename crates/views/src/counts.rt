//! What is counted of a stretch.
ghost use Rattle.std.specs.Prelude.{◌≡◌};
ghost use Rattle.views.specs.View.{is_recoverable, is_unrecoverable, is_other};
ghost use Rattle.views.specs.Window.{recounted, counts_after, Counted};

use operations::codes::{RECOVERABLE, UNRECOVERABLE};

/// How many codes are 15, how many 16, and how many others are not 0.
#[derive(Clone, Copy, Debug, Default, PartialEq, Eq)]
pub struct Counts {
    pub recoverable: u8,
    pub unrecoverable: u8,
    pub others: u8,
}

#[tactic(auto, unfolding(crate::specs::View::is_other, crate::specs::View::is_recoverable, crate::specs::View::is_unrecoverable))]
fn is_other(code: u8) -> bool
    ensures { result ≡ is_other code }
{
    !matches!(code, 0 | RECOVERABLE | UNRECOVERABLE)
}

// A count, after one code leaves and one enters: whether each is counted.
#[tactic(auto, unfolding(crate::specs::Window::recounted, common::specs::Pick::pick))]
fn recounted(n: u8, leaving: bool, entering: bool) -> u8
    requires { Counted n leaving }
    ensures { result ≡ recounted n leaving entering }
{
    n - leaving as u8 + entering as u8
}

impl Counts {
    /// The counts, after one code leaves and one enters.
    #[tactic(auto, unfolding(crate::specs::Window::counts_after, crate::specs::View::is_recoverable, crate::specs::View::is_unrecoverable))]
    pub fn counts_after(self, leaving: u8, entering: u8) -> Counts
        requires recoverable { Counted self.recoverable (is_recoverable leaving) }
        requires unrecoverable { Counted self.unrecoverable (is_unrecoverable leaving) }
        requires others { Counted self.others (is_other leaving) }
        ensures { result ≡ counts_after self leaving entering }
    {
        Counts {
            recoverable: recounted(
                self.recoverable,
                leaving == RECOVERABLE,
                entering == RECOVERABLE,
            ),
            unrecoverable: recounted(
                self.unrecoverable,
                leaving == UNRECOVERABLE,
                entering == UNRECOVERABLE,
            ),
            others: recounted(self.others, is_other(leaving), is_other(entering)),
        }
    }
}
