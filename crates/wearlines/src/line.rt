//! What a line of a wear log says.
ghost use Rattle.std.specs.Prelude.{◌≡◌};
ghost use Rattle.wearlines.specs.Line.{record_line, width_line};

use crate::limits::COUNT_LIMIT;
use status::words::ResultRecord;
use text::limits::BYTE_LIMIT;
use text::read::{byte_of, capped_decimal, decimal_of, part_of};
use views::limits::WIDTH_LIMIT;

/// A record.
#[tactic(auto, unfolding(crate::specs::Line::record_line, crate::specs::Line::fields_line, crate::specs::Line::after_colon, common::specs::Pick::pick))]
pub fn read_record(s: &[u8]) -> Option<ResultRecord>
    ensures { result ≡ record_line s.now }
{
    let (code, rest) = part_of(b':', s);
    let (motion, count) = part_of(b':', rest);
    Some(ResultRecord {
        code: byte_of(code)?,
        motion: decimal_of(BYTE_LIMIT, motion)? as u8,
        count: decimal_of(COUNT_LIMIT, count)? as u32,
    })
}

/// A width.
#[tactic(auto, unfolding(crate::specs::Line::width_line, text::specs::Digits::is_decimal, common::specs::Pick::pick))]
pub fn read_width(s: &[u8]) -> Option<usize>
    ensures { result ≡ width_line s.now }
{
    if s.is_empty() {
        return None;
    }
    Some(capped_decimal(s)?.min(WIDTH_LIMIT + 1))
}
