//! The answer to a question of the contest. What is promised is the contest, played by its rules; the code counts how
//! many stores are enough.
ghost use Rattle.std.specs.Prelude.{◌≡◌, ℕ, ◌≤◌, true};
ghost use Rattle.contest.specs.Contest.{position_of, forces, opening_of};
ghost use Rattle.contest.specs.Bound.{needed_stores};
ghost use Rattle.contest.specs.Answer.{writes_limit, spoilings_limit, is_above_limit, solve};
ghost use Rattle.contest.specs.Told.{told};

use common::refusals::Refusal;

// The most that is answered for.
const WRITES_LIMIT: u32 = 8;

const STORES_LIMIT: u32 = 32;

const SPOILINGS_LIMIT: u32 = 8;

/// How the tape stands in the gap between two records.
#[derive(Clone, Copy, Debug, PartialEq, Eq)]
pub enum Gap {
    Proper,
    Improper,
}

/// What the driver can do: a store of one of these.
#[derive(Clone, Copy, Debug, PartialEq, Eq)]
pub enum Move {
    Write,
    SkipReverse,
}

/// Whether the driver can force all writes, and then the first store of a winning play, where one is needed.
#[derive(Clone, Copy, Debug, PartialEq, Eq)]
pub enum Verdict {
    No,
    Yes(Option<Move>),
}

/// A question: the gap, the good writes, the stores, and the writes that the tape may spoil.
#[derive(Clone, Copy, Debug, PartialEq, Eq)]
pub struct Question {
    pub gap: Gap,
    pub writes: u32,
    pub stores: u32,
    pub spoilings: u32,
}

impl Question {
    // How many stores are enough for one write or more.
    #[tactic(auto, unfolding(crate::specs::Bound::needed_stores))]
    fn needed_stores(self) -> u32
        requires { (self.writes ≤ writes_limit) × (self.spoilings ≤ spoilings_limit) }
        ensures { result ≡ needed_stores self.gap self.writes self.spoilings }
    {
        let proper = self.writes + 2 * self.spoilings;
        match self.gap {
            Gap::Proper => proper,
            Gap::Improper => proper + 1,
        }
    }

    // Whether the driver can force all writes.
    #[tactic(auto, using(crate::proofs::ContestLaws::forces_none, crate::proofs::ContestLaws::forces_some))]
    fn forces(self) -> bool
        requires { (self.writes ≤ writes_limit) × (self.spoilings ≤ spoilings_limit) }
        ensures { result ≡ forces self.stores (position_of self.gap self.writes self.spoilings) }
    {
        self.writes == 0 || self.needed_stores() <= self.stores
    }

    // The first store of a winning play. Where the gap is proper and there is one at all, a write begins one.
    #[tactic(auto, using(crate::proofs::ContestLaws::write_first, crate::proofs::ContestLaws::no_write_first), unfolding(crate::specs::Contest::is_finished, crate::specs::Contest::opening_of, common::specs::Pick::pick))]
    fn opening(self) -> Option<Move>
        ensures { (n f : ℕ) → forces n (position_of self.gap self.writes f) ≡ true
            → result ≡ opening_of n (position_of self.gap self.writes f) }
    {
        if self.writes == 0 {
            return None;
        }
        match self.gap {
            Gap::Proper => Some(Move::Write),
            Gap::Improper => Some(Move::SkipReverse),
        }
    }

    // Whether a number is above its limit.
    #[tactic(auto, unfolding(crate::specs::Answer::is_above_limit))]
    fn is_above_limit(self) -> bool
        ensures { result ≡ is_above_limit self.writes self.stores self.spoilings }
    {
        (WRITES_LIMIT < self.writes)
            | (STORES_LIMIT < self.stores)
            | (SPOILINGS_LIMIT < self.spoilings)
    }

    /// The answer: the limits are tested before all else.
    #[tactic(auto, using(crate::proofs::ContestLaws::within_limits), unfolding(crate::specs::Answer::solve, common::specs::Pick::pick))]
    pub fn solve(self) -> Result<Verdict, Refusal>
        ensures { told result ≡ solve self.gap self.writes self.stores self.spoilings }
    {
        if self.is_above_limit() {
            return Err(Refusal::AboveLimit);
        }
        if self.forces() {
            return Ok(Verdict::Yes(self.opening()));
        }
        Ok(Verdict::No)
    }
}
