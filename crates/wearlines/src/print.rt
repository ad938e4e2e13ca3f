//! What is put of the view of a wear log. The functions are of the kind of those of `text::space`.
ghost use Rattle.std.specs.Prelude.{◌≡◌, ◌+◌, ◌≤◌, ◌++◌, length};
ghost use Rattle.wearlines.specs.Limits.{text_most, no_stretch_length};
ghost use Rattle.wearlines.specs.Print.{numbers_text, no_stretch_text, refused_text, bad_line_text};

use text::limits::DECIMAL_MOST;
use text::space::Text;

/// Three numbers.
#[tactic(auto, unfolding(crate::specs::Print::numbers_text))]
pub fn put_numbers<const N: usize>(a: u32, b: u32, c: u32, out: &mut Text<N>)
    requires { length out.old + text_most ≤ N }
    ensures fits { length out.new ≤ length out.old + text_most }
    ensures text { out.new ≡ out.old ++ numbers_text a b c }
{
    out.put_decimal(DECIMAL_MOST, a);
    out.put(b',');
    out.put_decimal(DECIMAL_MOST, b);
    out.put(b',');
    out.put_decimal(DECIMAL_MOST, c);
    out.put(b'\n');
}

/// No stretch.
#[tactic(auto, unfolding(crate::specs::Print::no_stretch_text))]
pub fn put_no_stretch<const N: usize>(out: &mut Text<N>)
    requires { length out.old + no_stretch_length ≤ N }
    ensures fits { length out.new ≡ length out.old + no_stretch_length }
    ensures text { out.new ≡ out.old ++ no_stretch_text }
{
    out.put_all(b"0,0,-\n");
}

/// A refusal.
#[tactic(auto, unfolding(crate::specs::Print::refused_text))]
pub fn put_refused<const N: usize>(refusal: u32, out: &mut Text<N>)
    requires { length out.old + text_most ≤ N }
    ensures fits { length out.new ≤ length out.old + text_most }
    ensures text { out.new ≡ out.old ++ refused_text refusal }
{
    out.put_decimal(DECIMAL_MOST, refusal);
    out.put_all(b",-,-\n");
}

/// A line that cannot be read.
#[tactic(auto, unfolding(crate::specs::Print::bad_line_text))]
pub fn put_bad_line<const N: usize>(line: u32, out: &mut Text<N>)
    requires { length out.old + text_most ≤ N }
    ensures fits { length out.new ≤ length out.old + text_most }
    ensures text { out.new ≡ out.old ++ bad_line_text line }
{
    out.put_all(b"?,");
    out.put_decimal(DECIMAL_MOST, line);
    out.put_all(b",-\n");
}
