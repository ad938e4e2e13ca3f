//! The functions for C. A state and an answer are arrays, a pointer each; a slice is a pointer and a length.
ghost use Rattle.std.specs.Prelude.{◌≡◌};
ghost use Rattle.transfers.specs.Data.{host_of};
ghost use Rattle.transfers.specs.Results.{result_of};
ghost use Rattle.firmware.specs.Calls.{ended, left, plainly, is_set, store_of, ctc_fresh, ctc_byte, ctc_taken};
ghost use Rattle.firmware.specs.Calls.{ctc_broken, ctc_report, ctc_data, ctc_result, ctc_tick, ctc_reset, ctc_queue};
ghost use Rattle.firmware.specs.Calls.{ctc_hand};

use crate::ending::{end_stored, on_state};
use crate::stored::Stored;
use common::refusals::Refusal;
use controller::controller::Controller;
use dispatcher::dispatcher::Dispatcher;
use layout::places::{ANSWER_LENGTH, STATE_LENGTH};
use layout::writing::put_state_bytes;
use operations::store::Store;
use transfers::data::HostBytes;
use transfers::verdict::TapeResult;

/// A fresh state, whatever stood there.
#[unsafe(no_mangle)]
#[tactic(auto, unfolding(crate::specs::Calls::ctc_fresh))]
pub extern "C" fn ctc_fresh(state: &mut [u8; STATE_LENGTH]) -> u32
    ensures answered { result ≡ 0 }
    ensures written { state.new ≡ ctc_fresh }
{
    put_state_bytes(&Dispatcher::fresh(), state);
    0
}

/// A byte comes from the host.
#[unsafe(no_mangle)]
pub extern "C" fn ctc_byte(
    state: &mut [u8; STATE_LENGTH],
    byte: u8,
    answer: &mut [u8; ANSWER_LENGTH],
) -> u32
    ensures { plainly result state.new answer.new
        ≡ ctc_byte byte state.old answer.old }
{
    on_state(state, answer, |c: &mut Controller| c.byte_in_place(byte))
}

/// The ACK that is offered is taken.
#[unsafe(no_mangle)]
pub extern "C" fn ctc_taken(state: &mut [u8; STATE_LENGTH], answer: &mut [u8; ANSWER_LENGTH]) -> u32
    ensures { plainly result state.new answer.new
        ≡ ctc_taken state.old answer.old }
{
    on_state(state, answer, |c: &mut Controller| c.taken_in_place())
}

/// The host breaks off.
#[unsafe(no_mangle)]
pub extern "C" fn ctc_broken(
    state: &mut [u8; STATE_LENGTH],
    answer: &mut [u8; ANSWER_LENGTH],
) -> u32
    ensures { plainly result state.new answer.new
        ≡ ctc_broken state.old answer.old }
{
    on_state(state, answer, |c: &mut Controller| c.broken_in_place())
}

/// A drive reports.
#[unsafe(no_mangle)]
pub extern "C" fn ctc_report(
    state: &mut [u8; STATE_LENGTH],
    drive: u8,
    report: u8,
    answer: &mut [u8; ANSWER_LENGTH],
) -> u32
    ensures { plainly result state.new answer.new
        ≡ ctc_report drive report state.old answer.old }
{
    on_state(
        state,
        answer,
        |c: &mut Controller| c.report_in_place(drive, report),
    )
}

/// The host's bytes for a write, and the place of one that came with bad parity.
#[unsafe(no_mangle)]
pub extern "C" fn ctc_data(
    state: &mut [u8; STATE_LENGTH],
    host: &[u8],
    place: usize,
    space: &mut [u8],
    check: &mut [u8],
    answer: &mut [u8; ANSWER_LENGTH],
) -> u32
    ensures { left (ended result state.new answer.new) space.new check.new
        ≡ ctc_data (host_of host.now place) space.old check.old
        state.old answer.old }
{
    let Some(mut c) = Controller::held(state) else {
        return u32::from(Refusal::StateDamaged);
    };
    let host = HostBytes { bytes: host, place };
    let told = c.data_in_place(&host, space, check);
    end_stored(&c, told, state, answer)
}

/// What came of an operation. Any mark but 0 is set.
#[unsafe(no_mangle)]
pub extern "C" fn ctc_result(
    state: &mut [u8; STATE_LENGTH],
    code: u8,
    mark: u8,
    late: u8,
    image: &[u8],
    marks: &[u8],
    space: &mut [u8],
    check: &mut [u8],
    answer: &mut [u8; ANSWER_LENGTH],
) -> u32
    ensures { left (ended result state.new answer.new) space.new check.new
        ≡ ctc_result (result_of code (is_set mark) late image.now marks.now)
        space.old check.old state.old answer.old }
{
    let Some(mut c) = Controller::held(state) else {
        return u32::from(Refusal::StateDamaged);
    };
    let tape = TapeResult {
        code,
        mark: mark != 0,
        late,
        image,
        marks,
    };
    let told = c.result_in_place(&tape, space, check);
    end_stored(&c, told, state, answer)
}

/// A tick.
#[unsafe(no_mangle)]
pub extern "C" fn ctc_tick(state: &mut [u8; STATE_LENGTH], answer: &mut [u8; ANSWER_LENGTH]) -> u32
    ensures { plainly result state.new answer.new
        ≡ ctc_tick state.old answer.old }
{
    on_state(state, answer, |c: &mut Controller| c.tick_in_place())
}

/// A reset.
#[unsafe(no_mangle)]
pub extern "C" fn ctc_reset(state: &mut [u8; STATE_LENGTH], answer: &mut [u8; ANSWER_LENGTH]) -> u32
    ensures { plainly result state.new answer.new
        ≡ ctc_reset state.old answer.old }
{
    on_state(state, answer, |c: &mut Controller| c.reset_in_place())
}

/// A job queues a store, given as its address and its four operand bytes.
#[unsafe(no_mangle)]
pub extern "C" fn ctc_queue(
    state: &mut [u8; STATE_LENGTH],
    job: u8,
    address: u8,
    first: u8,
    second: u8,
    third: u8,
    fourth: u8,
    answer: &mut [u8; ANSWER_LENGTH],
) -> u32
    ensures { plainly result state.new answer.new
        ≡ ctc_queue job (store_of address first second third fourth) state.old answer.old }
{
    let store = Store {
        address,
        first,
        second,
        third,
        fourth,
    };
    on_state(
        state,
        answer,
        |d: &mut Dispatcher| d.queue_in_place(job, store),
    )
}

/// The store whose turn it is is handed over.
#[unsafe(no_mangle)]
pub extern "C" fn ctc_hand(state: &mut [u8; STATE_LENGTH], answer: &mut [u8; ANSWER_LENGTH]) -> u32
    ensures { plainly result state.new answer.new
        ≡ ctc_hand state.old answer.old }
{
    on_state(state, answer, |d: &mut Dispatcher| d.hand_in_place())
}
