//! The window that moves along a run: it holds the last codes, so that each record is read once.
ghost use Rattle.std.specs.Prelude.{◌≡◌, ℕ, ◌+◌, ◌*◌, ◌≤◌, ◌<◌, List, [], ◌∷◌, ◌++◌, length};
ghost use Rattle.views.specs.Limits.{run_limit, stretch_bytes};
ghost use Rattle.views.specs.Window.{Whole, Shifted, placed, placed_into, After, open_window, view_of};

use crate::counts::Counts;
use crate::limits::{STRETCH_BYTES, WIDTH_LIMIT};
use crate::view::View;

/// The last codes that were taken in, and what is counted of them; before the first, codes 0. They go around: the
/// oldest is let out for the next.
#[derive(Clone, Copy)]
pub struct Window {
    pub codes: [u8; WIDTH_LIMIT],
    pub width: usize,
    pub oldest: usize,
    pub taken: usize,
    pub counts: Counts,
    /// the stretches that were given, the most codes 16 of any, and the first that has so many
    pub stretches: usize,
    pub most: u8,
    pub first: usize,
}

impl Window {
    /// Before the first record.
    #[tactic(auto, unfolding(crate::specs::Window::open_window))]
    pub fn open(width: usize) -> Window
        ensures { result ≡ open_window width }
    {
        Window {
            codes: [0; WIDTH_LIMIT],
            width,
            oldest: 0,
            taken: 0,
            counts: Counts::default(),
            stretches: 0,
            most: 0,
            first: 0,
        }
    }

    // Takes a code in, and lets the oldest out.
    fn shift(&mut self, code: u8)
        requires whole { Whole self.old }
        requires few_taken { self.old.taken < run_limit }
        ensures { Shifted self.old code self.new }
    {
        let oldest = self.oldest;
        let leaving = self.codes[oldest];
        self.codes[oldest] = code;
        self.oldest = if oldest + 1 == self.width {
            0
        } else {
            oldest + 1
        };
        self.taken += 1;
        self.counts = self.counts.counts_after(leaving, code);
    }

    // Places the three bytes of a full stretch, and notes its place where it has more codes 16 than any before.
    #[tactic(auto, unfolding(crate::specs::Window::placed, crate::specs::Window::placed_into, common::specs::Pick::pick, crate::specs::Window::with_stretch, crate::specs::Window::put3))]
    fn put_placed(&mut self, out: &mut [u8])
        requires few_stretches { self.old.stretches < run_limit }
        requires room { self.old.width ≤ self.old.taken
            → stretch_bytes * self.old.stretches + stretch_bytes ≤ length out.old }
        ensures noted { self.new ≡ placed self.old }
        ensures given { out.new ≡ placed_into self.old out.old }
    {
        if self.taken < self.width {
            return;
        }
        let place = self.stretches;
        let at = STRETCH_BYTES * place;
        out[at] = self.counts.recoverable;
        out[at + 1] = self.counts.unrecoverable;
        out[at + 2] = self.counts.others;
        self.stretches = place + 1;
        if self.most < self.counts.unrecoverable {
            self.most = self.counts.unrecoverable;
            self.first = place;
        }
    }

    /// One record more: its code is taken in, the oldest is let out, and a full stretch is given.
    pub fn step(&mut self, code: u8, out: &mut [u8])
        requires whole { Whole self.old }
        requires few_taken { self.old.taken < run_limit }
        requires few_stretches { self.old.stretches < run_limit }
        requires room { self.old.width ≤ self.old.taken + 1
            → stretch_bytes * self.old.stretches + stretch_bytes ≤ length out.old }
        ensures { (width : ℕ) (codes space : List ℕ) → After width codes space self.old out.old
            → After width (codes ++ (code ∷ [])) space self.new out.new }
    {
        self.shift(code);
        self.put_placed(out);
    }

    /// What is answered after the last record.
    #[tactic(auto, unfolding(crate::specs::Window::view_of, common::specs::Pick::pick))]
    pub fn view(&self) -> View
        ensures { result ≡ view_of self.now }
    {
        View {
            stretches: self.stretches,
            first: (0 < self.stretches).then_some(self.first),
        }
    }
}
