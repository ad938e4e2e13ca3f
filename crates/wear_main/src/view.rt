//! The view of a log is printed: one line for all of it, and then one for each stretch.
ghost use Rattle.std.specs.Prelude.{◌≤◌, ◌+◌, length, IfErr};
ghost use Rattle.console.specs.Failures.{IsOfWriting};
ghost use Rattle.wearlines.specs.Limits.{text_most};

use console::{Failure, OUTPUT_SIZE, make_room, write_waiting};
use std::io::Write;
use text::space::Text;
use views::limits::{RUN_LIMIT, STRETCH_BYTES};
use views::view::View;
use wearlines::log::{Fault, Log};
use wearlines::print::{put_bad_line, put_no_stretch, put_numbers, put_refused};

// The bytes of the most stretches that a run can have.
const COUNTS_SIZE: usize = STRETCH_BYTES * RUN_LIMIT;

// The line before the stretches. No view has more stretches than a run records, so that nothing is cut here.
fn put_head<const N: usize>(view: View, out: &mut Text<N>)
    requires { length out.old + text_most ≤ N }
{
    let stretches = view.stretches.min(RUN_LIMIT) as u32;
    match view.first {
        None => put_no_stretch(out),
        Some(place) => put_numbers(0, stretches, place.min(RUN_LIMIT) as u32, out),
    }
}

// The lines of so many stretches, three counts each.
fn put_stretches<W: Write>(
    stretches: usize,
    counts: &[u8],
    output: &mut W,
    out: &mut Text<OUTPUT_SIZE>,
) -> Result<(), Failure>
    ensures { IfErr result (λ e. IsOfWriting e) }
{
    for stretch in counts.chunks(STRETCH_BYTES).take(stretches) {
        make_room(output, out)?;
        if let [a, b, c] = stretch {
            put_numbers(*a as u32, *b as u32, *c as u32, out);
        }
    }
    Ok(())
}

/// The view of a log, or the line that cannot be read. Where a write fails, some of the text may be written.
pub fn put_log<W: Write>(log: &Log, output: &mut W) -> Result<(), Failure>
    ensures { IfErr result (λ e. IsOfWriting e) }
{
    let mut out = Text::new();
    let mut counts = [0u8; COUNTS_SIZE];
    match log.view(&mut counts) {
        Err(Fault::BadLine(line)) => put_bad_line(line, &mut out),
        Err(Fault::Refused(refusal)) => put_refused(u32::from(refusal), &mut out),
        Ok(view) => {
            put_head(view, &mut out);
            put_stretches(view.stretches, &counts, output, &mut out)?;
        }
    }
    write_waiting(output, &mut out)
}
