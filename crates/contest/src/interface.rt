//! The function for C: numbers in, and the answer as one number.
ghost use Rattle.std.specs.Prelude.{◌≡◌};
ghost use Rattle.contest.specs.Interface.{answer_number, contest};
ghost use Rattle.contest.specs.Told.{told, told_verdict};

use crate::contest::{Gap, Move, Question, Verdict};
use common::refusals::Refusal;

// The number of an answer that is not refused.
impl From<Verdict> for u32 {
    ghost from_gives = { λ verdict number. number ≡ answer_number (told_verdict verdict) };

    #[tactic(auto, unfolding(crate::specs::Interface::answer_number, crate::specs::Interface::first_number, crate::specs::Interface::move_number))]
    fn from(verdict: Verdict) -> u32 {
        match verdict {
            Verdict::No => 0,
            Verdict::Yes(None) => 1,
            Verdict::Yes(Some(Move::Write)) => 2,
            Verdict::Yes(Some(Move::SkipReverse)) => 3,
        }
    }
}

// The number of an answer: the refusals' lie above.
#[tactic(auto, unfolding(crate::specs::Interface::answer_number))]
fn answer_number(answer: Result<Verdict, Refusal>) -> u32
    ensures { result ≡ answer_number (told answer) }
{
    match answer {
        Ok(verdict) => u32::from(verdict),
        Err(refusal) => u32::from(refusal),
    }
}

/// Driver against tape. A gap above its limit is refused as the other numbers are.
#[unsafe(no_mangle)]
#[tactic(auto, unfolding(crate::specs::Interface::contest, common::specs::Pick::pick))]
pub extern "C" fn ctc_contest(gap: u32, writes: u32, stores: u32, spoilings: u32) -> u32
    ensures { result ≡ contest gap writes stores spoilings }
{
    let gap = match gap {
        0 => Gap::Proper,
        1 => Gap::Improper,
        _ => return u32::from(Refusal::AboveLimit),
    };
    let question = Question {
        gap,
        writes,
        stores,
        spoilings,
    };
    answer_number(question.solve())
}
