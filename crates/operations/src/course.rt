//! A store's course: what it comes to for the drive that it is for, by what it asks for, decided before anything of the
//! state is touched.
ghost use Rattle.std.specs.Prelude.{◌≡◌};
ghost use Rattle.operations.specs.Course.{test_of, course_of};

use crate::codes::ILLEGAL_MOTION;
use crate::decode::Decoded;
use crate::operation::Operation;
use status::drives::Drive;

/// The controller is reset, a code ends the store, enable is cleared or set, the drive has another record, or an
/// operation begins.
#[derive(Clone, Copy)]
pub enum Course {
    Reset,
    End(u8),
    Enable(bool),
    Set(Drive),
    Begin(Operation),
}

// An operation begins where the drive may carry it out.
#[tactic(auto, unfolding(crate::specs::Course::test_of, common::specs::Pick::pick))]
fn test_of(drive: Drive, operation: Operation) -> Course
    ensures { result ≡ test_of drive operation }
{
    if operation.motion().may_move(drive) {
        return Course::Begin(operation);
    }
    Course::End(ILLEGAL_MOTION)
}

/// By what is asked for.
#[tactic(auto, unfolding(crate::specs::Course::course_of))]
pub fn course_of(drive: Drive, asked: Decoded) -> Course
    ensures { result ≡ course_of drive asked }
{
    match asked {
        Decoded::Reset => Course::Reset,
        Decoded::Code(code) => Course::End(code),
        Decoded::Track(track) => Course::Set(drive.with_track(track)),
        Decoded::Enable(enable) => Course::Enable(enable),
        Decoded::Guard(guard) => Course::Set(drive.with_guard(guard)),
        Decoded::Density(density) => Course::Set(drive.with_density(density)),
        Decoded::Operate(operation) => test_of(drive, operation),
    }
}
