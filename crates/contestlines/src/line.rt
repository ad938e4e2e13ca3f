//! What a line says.
ghost use Rattle.std.specs.Prelude.{◌≡◌};
ghost use Rattle.contestlines.specs.Line.{fields_line, question_of};

use contest::contest::{Gap, Question};
use text::limits::BYTE_LIMIT;
use text::read::{decimal_of, field_of};

// The numbers of a question.
#[tactic(auto, unfolding(crate::specs::Line::fields_line, crate::specs::Line::numbers_line, text::specs::Fields::after_fields, common::specs::Pick::pick))]
fn read_fields(gap: Gap, s: &[u8]) -> Option<Question>
    ensures { result ≡ fields_line gap s.now }
{
    let (writes, rest) = field_of(s);
    let (stores, spoilings) = field_of(rest);
    Some(Question {
        gap,
        writes: decimal_of(BYTE_LIMIT, writes)? as u32,
        stores: decimal_of(BYTE_LIMIT, stores)? as u32,
        spoilings: decimal_of(BYTE_LIMIT, spoilings)? as u32,
    })
}

/// The question of a line, without its #0A.
#[tactic(auto, unfolding(crate::specs::Line::question_of, crate::specs::Line::gap_line, common::specs::Pick::pick))]
pub fn read_question(line: &[u8]) -> Option<Question>
    ensures { result ≡ question_of line.now }
{
    match line {
        [b'P', b',', numbers @ ..] => read_fields(Gap::Proper, numbers),
        [b'I', b',', numbers @ ..] => read_fields(Gap::Improper, numbers),
        _ => None,
    }
}
