//! The text that is printed: a line for each operation, a digit for each code.
ghost use Rattle.std.specs.Prelude.{◌≡◌, ◌+◌, ◌≤◌, ◌++◌, length};
ghost use Rattle.operations.specs.Answers.{answer_of};
ghost use Rattle.table.specs.Text.{zero_digit, line_text, table_length, table_text};

use crate::rules::answer_by_rules;
use operations::operation::Operation;
use text::space::Text;

const LAST_CODE: u8 = 31;

pub const TABLE_LENGTH: usize = 768;

// The digit of an operation and a code.
fn digit(operation: Operation, code: u8) -> u8
    ensures { result ≡ zero_digit + answer_of operation code }
{
    b'0' + answer_by_rules(operation, code) as u8
}

// The line of an operation: its digits, parted by commas.
fn put_line(operation: Operation, out: &mut Text<TABLE_LENGTH>)
    requires { length out.old + 64 ≤ table_length }
    ensures fits { length out.new ≡ length out.old + 64 }
    ensures text { out.new ≡ out.old ++ line_text operation }
{
    for code in 0..LAST_CODE {
        out.put_all(&[digit(operation, code), b',']);
    }
    out.put_all(&[digit(operation, LAST_CODE), b'\n']);
}

/// The whole text.
pub fn table_text() -> Text<TABLE_LENGTH>
    ensures { result ≡ table_text }
{
    let mut text = Text::new();
    for &operation in &Operation::ALL {
        put_line(operation, &mut text);
    }
    text
}
