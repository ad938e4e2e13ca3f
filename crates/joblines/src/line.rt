//! What a line says.
ghost use Rattle.std.specs.Prelude.{◌≡◌};
ghost use Rattle.std.specs.Bool.{then_some};
ghost use Rattle.text.specs.Digits.{bytes_of};
ghost use Rattle.joblines.specs.Line.{is_operand, queue_line, job_line_of, job_line_read};

use crate::limits::{OPERAND_BYTES, OPERAND_LENGTH};
use lines::line::{Call, read_line};
use operations::store::Store;
use text::limits::BYTE_LIMIT;
use text::read::{Hex, byte_of, decimal_of, field_of};

/// A line that was read: a job queues a store, the next store is handed over, or it is one of the session program's
/// calls.
#[derive(Clone, Copy)]
pub enum JobCall<'a> {
    Queue(u8, Store),
    Hand,
    Session(Call<'a>),
}

// The bytes of an operand.
#[tactic(auto, using(crate::proofs::LineLaws::operand_is, crate::proofs::LineLaws::operand_other, crate::proofs::LineLaws::operand_bytes))]
fn read_operand(s: &[u8]) -> Option<[u8; OPERAND_BYTES]>
    ensures { result ≡ then_some (is_operand s.now) (bytes_of s.now) }
{
    if s.len() != OPERAND_LENGTH {
        return None;
    }
    let mut bytes = [0; OPERAND_BYTES];
    Hex::<OPERAND_BYTES>::read_bytes(s)?.overwrite(&mut bytes);
    Some(bytes)
}

// A job queues a store.
#[tactic(auto, unfolding(crate::specs::Line::queue_line, crate::specs::Line::store_line, crate::specs::Line::store_of, text::specs::Fields::after_fields, crate::specs::Line::job_line_read, common::specs::Pick::pick))]
fn read_queue(s: &[u8]) -> Option<JobCall<'_>>
    ensures { job_line_read result ≡ queue_line s.now }
{
    let (job, rest) = field_of(s);
    let (address, operand) = field_of(rest);
    let job = decimal_of(BYTE_LIMIT, job)? as u8;
    let address = byte_of(address)?;
    let [first, second, third, fourth] = read_operand(operand)?;
    Some(JobCall::Queue(
        job,
        Store {
            address,
            first,
            second,
            third,
            fourth,
        },
    ))
}

/// A line, without its #0A.
#[tactic(auto, unfolding(crate::specs::Line::job_line_of, crate::specs::Line::is_hand, crate::specs::Line::is_queue, crate::specs::Line::job_line_read, lines::specs::Line::line_read, common::specs::Pick::pick))]
pub fn read_job_line(line: &[u8]) -> Option<JobCall<'_>>
    ensures { job_line_read result ≡ job_line_of line.now }
{
    match line {
        [b'H'] => Some(JobCall::Hand),
        [b'Q', b',', rest @ ..] => read_queue(rest),
        _ => Some(JobCall::Session(read_line(line)?)),
    }
}
