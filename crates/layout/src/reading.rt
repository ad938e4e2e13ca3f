//! The state that bytes hold. Any bytes are read; whether a field can mean its byte is told apart by is_state.
ghost use Rattle.std.specs.Prelude.{◌≡◌, ◌+◌, ◌≤◌};
ghost use Rattle.layout.specs.Places.{state_length, drive_length, store_length, queue_length};
ghost use Rattle.layout.specs.Reading.{drive_at, drives_of, count_at, outcome_of, word_at, body_of, store_at};
ghost use Rattle.layout.specs.Reading.{collected_of, kind_of, send_of, operation_of, phase_of, queue_at, queues_of};
ghost use Rattle.layout.specs.Reading.{controller_of, state_of, are_flags, is_phase, is_state, has_sound_queues};

use crate::places::{
    ACK_OFFERED, CHANGED_PLACE, CODE_PLACE, COLLECTING, COUNT_PLACE, COUNTED_PLACE, DATA_AWAITED,
    DRIVE_LENGTH, DRIVES_PLACE, ENABLE_PLACE, END_OFFERED, GO_OFFERED, GUARD_PLACE, HELD_PLACE,
    LAST_KIND, LAST_OPERATION, LAST_PLACE, LAYOUT, LAYOUT_PLACE, MARK_PLACE, MOTION_PLACE,
    OVERFLOW_PLACE, PARITY_PLACE, PHASE_PLACE, QUEUE_LENGTH, QUEUES_PLACE, QUINTARY_PLACE,
    RDL_PLACE, RESULT_AWAITED, RETRY_PLACE, SELECTED_PLACE, SENDING, STATE_LENGTH, STORE_LENGTH,
    SUPPLIED_PLACE, TERTIARY_PLACE, UNDERFLOW_PLACE, WDL_PLACE,
};
use common::four::Four;
use controller::controller::Controller;
use dispatcher::dispatcher::Dispatcher;
use link::frames::Frame;
use link::state::{Body, Collected, Kind, Phase, Send};
use operations::operation::Operation;
use operations::store::Store;
use queues::jobs::{JOBS, Queues};
use queues::queue::{QUEUE_LIMIT, Queue};
use status::drives::{Drive, Drives};
use status::words::{Outcome, ResultRecord, Word};

fn drive_at(s: &[u8; STATE_LENGTH], place: usize) -> Drive
    requires { place + drive_length ≤ state_length }
    ensures { result ≡ drive_at s.now place }
{
    Drive {
        report: s[place],
        reviewed: s[place + 1],
        track: s[place + 2],
        density: s[place + 3],
        gap: s[place + 4],
        guard: s[place + GUARD_PLACE] == 1,
    }
}

#[tactic(auto, unfolding(crate::specs::Reading::drives_of))]
fn drives_of(s: &[u8; STATE_LENGTH]) -> Drives
    ensures { result ≡ drives_of s.now }
{
    Four {
        zero: drive_at(s, DRIVES_PLACE),
        one: drive_at(s, DRIVES_PLACE + DRIVE_LENGTH),
        two: drive_at(s, DRIVES_PLACE + 2 * DRIVE_LENGTH),
        three: drive_at(s, DRIVES_PLACE + 3 * DRIVE_LENGTH),
    }
}

// Two bytes, the high one first.
fn count_at(s: &[u8; STATE_LENGTH], place: usize) -> u32
    requires { place + 2 ≤ state_length }
    ensures { result ≡ count_at s.now place }
{
    u32::from(u16::from_be_bytes([s[place], s[place + 1]]))
}

#[tactic(auto, unfolding(crate::specs::Reading::outcome_of))]
fn outcome_of(s: &[u8; STATE_LENGTH]) -> Outcome
    ensures { result ≡ outcome_of s.now }
{
    let count = count_at(s, COUNT_PLACE);
    let result = ResultRecord {
        code: s[CODE_PLACE],
        motion: s[MOTION_PLACE],
        count,
    };
    Outcome {
        retry: s[RETRY_PLACE] == 1,
        mark: s[MARK_PLACE] == 1,
        result,
        parity: s[PARITY_PLACE] == 1,
        overflow: s[OVERFLOW_PLACE] == 1,
        underflow: s[UNDERFLOW_PLACE] == 1,
        wdl: s[WDL_PLACE] == 1,
        rdl: s[RDL_PLACE] == 1,
        supplied: s[SUPPLIED_PLACE] == 1,
        counted: s[COUNTED_PLACE] == 1,
    }
}

fn word_at(s: &[u8; STATE_LENGTH], place: usize) -> Word
    requires { place + 4 ≤ state_length }
    ensures { result ≡ word_at s.now place }
{
    Word {
        b0: s[place],
        b1: s[place + 1],
        b2: s[place + 2],
        b3: s[place + 3],
    }
}

#[tactic(auto, unfolding(crate::specs::Reading::body_of))]
fn body_of(s: &[u8; STATE_LENGTH]) -> Body
    ensures { result ≡ body_of s.now }
{
    Body {
        drives: drives_of(s),
        selected: s[SELECTED_PLACE],
        changed: s[CHANGED_PLACE] == 1,
        enable: s[ENABLE_PLACE] == 1,
        outcome: outcome_of(s),
        tertiary: word_at(s, TERTIARY_PLACE),
        quintary: word_at(s, QUINTARY_PLACE),
    }
}

fn store_at(s: &[u8; STATE_LENGTH], place: usize) -> Store
    requires { place + store_length ≤ state_length }
    ensures { result ≡ store_at s.now place }
{
    Store {
        address: s[place],
        first: s[place + 1],
        second: s[place + 2],
        third: s[place + 3],
        fourth: s[place + 4],
    }
}

fn collected_of(s: &[u8; STATE_LENGTH]) -> Collected
    ensures { result ≡ collected_of s.now }
{
    Collected {
        length: s[HELD_PLACE],
        c0: s[HELD_PLACE + 1],
        c1: s[HELD_PLACE + 2],
        c2: s[HELD_PLACE + 3],
        c3: s[HELD_PLACE + 4],
        c4: s[HELD_PLACE + 5],
        c5: s[HELD_PLACE + 6],
        c6: s[HELD_PLACE + 7],
        c7: s[HELD_PLACE + 8],
    }
}

#[tactic(auto, unfolding(crate::specs::Reading::kind_of, common::specs::Pick::pick))]
fn kind_of(number: u8) -> Kind
    ensures { result ≡ kind_of number }
{
    match number {
        0 => Kind::Load,
        1 => Kind::Secondary,
        2 => Kind::Completion,
        _ => Kind::Change,
    }
}

#[tactic(auto, unfolding(crate::specs::Reading::send_of))]
fn send_of(s: &[u8; STATE_LENGTH]) -> Send
    ensures { result ≡ send_of s.now }
{
    let kind = kind_of(s[HELD_PLACE]);
    let bytes = Frame {
        b0: s[HELD_PLACE + 1],
        b1: s[HELD_PLACE + 2],
        b2: s[HELD_PLACE + 3],
        b3: s[HELD_PLACE + 4],
        b4: s[HELD_PLACE + 5],
        b5: s[HELD_PLACE + 6],
    };
    Send {
        kind,
        bytes,
        noes: s[HELD_PLACE + 7],
    }
}

// The operation of a number; from 11 on the last.
#[tactic(auto, unfolding(crate::specs::Reading::operation_of))]
fn operation_of(number: u8) -> Operation
    ensures { result ≡ operation_of number }
{
    Operation::try_from(number).unwrap_or(Operation::WriteMark)
}

#[tactic(auto, unfolding(crate::specs::Reading::phase_of, common::specs::Pick::pick))]
fn phase_of(s: &[u8; STATE_LENGTH]) -> Phase
    ensures { result ≡ phase_of s.now }
{
    let number = s[PHASE_PLACE];
    match number {
        COLLECTING => Phase::Collecting(collected_of(s)),
        ACK_OFFERED => Phase::AckOffered(collected_of(s)),
        SENDING => Phase::Sending(send_of(s)),
        GO_OFFERED => Phase::GoOffered(store_at(s, HELD_PLACE)),
        DATA_AWAITED => Phase::DataAwaited(store_at(s, HELD_PLACE)),
        RESULT_AWAITED => {
            Phase::ResultAwaited(operation_of(s[HELD_PLACE]), store_at(s, HELD_PLACE + 1))
        }
        _ => Phase::EndOffered(s[HELD_PLACE] == 1),
    }
}

#[tactic(auto, unfolding(crate::specs::Reading::queue_at))]
fn queue_at(s: &[u8; STATE_LENGTH], place: usize) -> Queue
    requires { place + queue_length ≤ state_length }
    ensures { result ≡ queue_at s.now place }
{
    let first = place + 1;
    Queue {
        stores: [
            store_at(s, first),
            store_at(s, first + STORE_LENGTH),
            store_at(s, first + 2 * STORE_LENGTH),
            store_at(s, first + 3 * STORE_LENGTH),
            store_at(s, first + 4 * STORE_LENGTH),
            store_at(s, first + 5 * STORE_LENGTH),
            store_at(s, first + 6 * STORE_LENGTH),
            store_at(s, first + 7 * STORE_LENGTH),
        ],
        length: s[place],
    }
}

#[tactic(auto, unfolding(crate::specs::Reading::queues_of))]
fn queues_of(s: &[u8; STATE_LENGTH]) -> Queues
    ensures { result ≡ queues_of s.now }
{
    Queues {
        jobs: Four {
            zero: queue_at(s, QUEUES_PLACE),
            one: queue_at(s, QUEUES_PLACE + QUEUE_LENGTH),
            two: queue_at(s, QUEUES_PLACE + 2 * QUEUE_LENGTH),
            three: queue_at(s, QUEUES_PLACE + 3 * QUEUE_LENGTH),
        },
        last: s[LAST_PLACE],
    }
}

/// The controller alone, a quarter of the bytes.
pub fn controller_of(s: &[u8; STATE_LENGTH]) -> Controller
    ensures { result ≡ controller_of s.now }
{
    Controller {
        body: body_of(s),
        phase: phase_of(s),
    }
}

/// The whole state.
#[tactic(auto, unfolding(crate::specs::Reading::state_of))]
pub fn state_of(s: &[u8; STATE_LENGTH]) -> Dispatcher
    ensures { result ≡ state_of s.now }
{
    Dispatcher {
        controller: controller_of(s),
        queues: queues_of(s),
    }
}

// Whether each flag is 0 or 1.
#[tactic(auto, unfolding(crate::specs::Reading::are_flags))]
fn are_flags(s: &[u8; STATE_LENGTH]) -> bool
    ensures { result ≡ are_flags s.now }
{
    (s[DRIVES_PLACE + GUARD_PLACE] <= 1)
        & (s[DRIVES_PLACE + DRIVE_LENGTH + GUARD_PLACE] <= 1)
        & (s[DRIVES_PLACE + 2 * DRIVE_LENGTH + GUARD_PLACE] <= 1)
        & (s[DRIVES_PLACE + 3 * DRIVE_LENGTH + GUARD_PLACE] <= 1)
        & (s[CHANGED_PLACE] <= 1)
        & (s[ENABLE_PLACE] <= 1)
        & (s[RETRY_PLACE] <= 1)
        & (s[MARK_PLACE] <= 1)
        & (s[PARITY_PLACE] <= 1)
        & (s[OVERFLOW_PLACE] <= 1)
        & (s[UNDERFLOW_PLACE] <= 1)
        & (s[WDL_PLACE] <= 1)
        & (s[RDL_PLACE] <= 1)
        & (s[SUPPLIED_PLACE] <= 1)
        & (s[COUNTED_PLACE] <= 1)
}

// Whether a phase has this number, and what it holds first is a kind, an operation or a flag where it should be.
#[tactic(auto, unfolding(crate::specs::Reading::is_phase, common::specs::Pick::pick))]
fn is_phase(number: u8, first: u8) -> bool
    ensures { result ≡ is_phase number first }
{
    match number {
        SENDING => first <= LAST_KIND,
        RESULT_AWAITED => first <= LAST_OPERATION,
        END_OFFERED => first <= 1,
        _ => number <= END_OFFERED,
    }
}

/// Whether bytes are those of a state, whose fields may be out of range.
#[tactic(auto, unfolding(crate::specs::Reading::is_state))]
pub fn is_state(s: &[u8; STATE_LENGTH]) -> bool
    ensures { result ≡ is_state s.now }
{
    (s[LAYOUT_PLACE] == LAYOUT) & are_flags(s) & is_phase(s[PHASE_PLACE], s[HELD_PLACE])
}

/// The same, and whether the lengths of the queues and the last job served are in range: by these five bytes of them.
#[tactic(auto, unfolding(crate::specs::Reading::has_sound_queues, queues::specs::Jobs::are_sound, crate::specs::Reading::queues_of, crate::specs::Reading::queue_at))]
pub fn has_sound_queues(s: &[u8; STATE_LENGTH]) -> bool
    ensures { result ≡ has_sound_queues s.now }
{
    is_state(s)
        & ((s[QUEUES_PLACE] <= QUEUE_LIMIT)
            & (s[QUEUES_PLACE + QUEUE_LENGTH] <= QUEUE_LIMIT)
            & (s[QUEUES_PLACE + 2 * QUEUE_LENGTH] <= QUEUE_LIMIT)
            & (s[QUEUES_PLACE + 3 * QUEUE_LENGTH] <= QUEUE_LIMIT)
            & (s[LAST_PLACE] < JOBS))
}
