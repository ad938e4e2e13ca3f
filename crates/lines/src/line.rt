//! What a line says.
ghost use Rattle.std.specs.Prelude.{◌≡◌};
ghost use Rattle.lines.specs.Line.{bare_line, byte_line, report_line, data_line, result_line, line_of, line_read};

use crate::limits::{FLAG_LIMIT, HOST_LIMIT, IMAGE_LIMIT, MARKS_LIMIT};
use text::limits::BYTE_LIMIT;
use text::read::{Hex, byte_of, decimal_of, field_of};

/// A call that is lent nothing.
#[derive(Clone, Copy)]
pub enum PlainCall {
    Byte(u8),
    Taken,
    Broken,
    Report(u8, u8),
    Tick,
    Reset,
}

/// The fields of a result.
#[derive(Clone, Copy)]
pub struct ResultFields<'a> {
    pub code: u8,
    pub mark: bool,
    pub late: u8,
    pub image: Hex<'a, IMAGE_LIMIT>,
    pub marks: Hex<'a, MARKS_LIMIT>,
    pub space: usize,
}

/// A call that is lent space.
#[derive(Clone, Copy)]
pub enum LentCall<'a> {
    HostData(Hex<'a, HOST_LIMIT>),
    Result(ResultFields<'a>),
}

/// A call.
#[derive(Clone, Copy)]
pub enum Call<'a> {
    Plain(PlainCall),
    Lent(LentCall<'a>),
}

// A line of one letter.
#[tactic(auto, unfolding(crate::specs::Line::bare_line, crate::specs::Line::line_read, crate::specs::Line::call_read, crate::specs::Line::plain_line, common::specs::Pick::pick))]
fn read_bare<'a>(letter: u8) -> Option<Call<'a>>
    ensures { line_read result ≡ bare_line letter }
{
    Some(Call::Plain(match letter {
        b'T' => PlainCall::Taken,
        b'X' => PlainCall::Broken,
        b'K' => PlainCall::Tick,
        b'Z' => PlainCall::Reset,
        _ => return None,
    }))
}

// A byte.
#[tactic(auto, unfolding(crate::specs::Line::byte_line, crate::specs::Line::line_read, crate::specs::Line::call_read, crate::specs::Line::plain_line, common::specs::Pick::pick))]
fn read_byte(s: &[u8]) -> Option<Call<'_>>
    ensures { line_read result ≡ byte_line s.now }
{
    Some(Call::Plain(PlainCall::Byte(byte_of(s)?)))
}

// A report.
#[tactic(auto, unfolding(crate::specs::Line::report_line, crate::specs::Line::line_read, crate::specs::Line::call_read, crate::specs::Line::plain_line, common::specs::Pick::pick))]
fn read_report(s: &[u8]) -> Option<Call<'_>>
    ensures { line_read result ≡ report_line s.now }
{
    let (drive, report) = field_of(s);
    Some(Call::Plain(PlainCall::Report(decimal_of(BYTE_LIMIT, drive)? as u8, byte_of(report)?)))
}

// Host bytes.
#[tactic(auto, unfolding(crate::specs::Line::data_line, crate::specs::Line::line_read, crate::specs::Line::call_read, crate::specs::Line::lent_line, common::specs::Pick::pick))]
fn read_data(s: &[u8]) -> Option<Call<'_>>
    ensures { line_read result ≡ data_line s.now }
{
    Some(Call::Lent(LentCall::HostData(Hex::read_bytes(s)?)))
}

// A result.
#[tactic(auto, unfolding(crate::specs::Line::result_line, crate::specs::Line::fields_line, text::specs::Fields::after_fields, crate::specs::Line::line_read, crate::specs::Line::call_read, crate::specs::Line::lent_line, common::specs::Pick::pick))]
fn read_result(s: &[u8]) -> Option<Call<'_>>
    ensures { line_read result ≡ result_line s.now }
{
    let (code, rest) = field_of(s);
    let (mark, rest) = field_of(rest);
    let (late, rest) = field_of(rest);
    let (image, rest) = field_of(rest);
    let (marks, space) = field_of(rest);
    Some(Call::Lent(LentCall::Result(ResultFields {
        code: byte_of(code)?,
        mark: decimal_of(FLAG_LIMIT, mark)? == 1,
        late: decimal_of(BYTE_LIMIT, late)? as u8,
        image: Hex::read_bytes(image)?,
        marks: Hex::read_bytes(marks)?,
        space: decimal_of(HOST_LIMIT, space)?,
    })))
}

/// A line, without its #0A.
#[tactic(auto, unfolding(crate::specs::Line::line_of, crate::specs::Line::call_line, common::specs::Pick::pick, crate::specs::Line::line_read))]
pub fn read_line(line: &[u8]) -> Option<Call<'_>>
    ensures { line_read result ≡ line_of line.now }
{
    match line {
        [letter] => read_bare(*letter),
        [b'B', b',', rest @ ..] => read_byte(rest),
        [b'S', b',', rest @ ..] => read_report(rest),
        [b'D', b',', rest @ ..] => read_data(rest),
        [b'R', b',', rest @ ..] => read_result(rest),
        _ => None,
    }
}
