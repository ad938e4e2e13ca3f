#![tactic(auto)]

// The dispatcher for C: the functions of `firmware::interface` under their own names, each with its clauses. A state
// and an answer are arrays, a pointer each; a slice is a pointer and a length.
ghost use Rattle.std.specs.Prelude.{◌≡◌};
ghost use Rattle.transfers.specs.Data.{host_of};
ghost use Rattle.transfers.specs.Results.{result_of};
ghost use Rattle.firmware.specs.Calls.{ended, left, plainly, is_set, store_of, ctc_fresh, ctc_byte, ctc_taken};
ghost use Rattle.firmware.specs.Calls.{ctc_broken, ctc_report, ctc_data, ctc_result, ctc_tick, ctc_reset, ctc_queue};
ghost use Rattle.firmware.specs.Calls.{ctc_hand};

use firmware::interface;
use layout::places::{ANSWER_LENGTH, STATE_LENGTH};

/// A fresh state, whatever stood there.
#[unsafe(no_mangle)]
pub extern "C" fn ctc_fresh(state: &mut [u8; STATE_LENGTH]) -> u32
    ensures answered { result ≡ 0 }
    ensures written { state.new ≡ ctc_fresh }
{
    interface::ctc_fresh(state)
}

/// A byte comes from the host.
#[unsafe(no_mangle)]
pub extern "C" fn ctc_byte(
    state: &mut [u8; STATE_LENGTH],
    byte: u8,
    answer: &mut [u8; ANSWER_LENGTH],
) -> u32
    ensures { plainly result state.new answer.new
        ≡ ctc_byte byte state.old answer.old }
{
    interface::ctc_byte(state, byte, answer)
}

/// The ACK that is offered is taken.
#[unsafe(no_mangle)]
pub extern "C" fn ctc_taken(state: &mut [u8; STATE_LENGTH], answer: &mut [u8; ANSWER_LENGTH]) -> u32
    ensures { plainly result state.new answer.new
        ≡ ctc_taken state.old answer.old }
{
    interface::ctc_taken(state, answer)
}

/// The host breaks off.
#[unsafe(no_mangle)]
pub extern "C" fn ctc_broken(
    state: &mut [u8; STATE_LENGTH],
    answer: &mut [u8; ANSWER_LENGTH],
) -> u32
    ensures { plainly result state.new answer.new
        ≡ ctc_broken state.old answer.old }
{
    interface::ctc_broken(state, answer)
}

/// A drive reports.
#[unsafe(no_mangle)]
pub extern "C" fn ctc_report(
    state: &mut [u8; STATE_LENGTH],
    drive: u8,
    report: u8,
    answer: &mut [u8; ANSWER_LENGTH],
) -> u32
    ensures { plainly result state.new answer.new
        ≡ ctc_report drive report state.old answer.old }
{
    interface::ctc_report(state, drive, report, answer)
}

/// The host's bytes for a write, and the place of one that came with bad parity.
#[unsafe(no_mangle)]
pub extern "C" fn ctc_data(
    state: &mut [u8; STATE_LENGTH],
    host: &[u8],
    place: usize,
    space: &mut [u8],
    check: &mut [u8],
    answer: &mut [u8; ANSWER_LENGTH],
) -> u32
    ensures { left (ended result state.new answer.new) space.new check.new
        ≡ ctc_data (host_of host.now place) space.old check.old
        state.old answer.old }
{
    interface::ctc_data(state, host, place, space, check, answer)
}

/// What came of an operation. Any mark but 0 is set.
#[unsafe(no_mangle)]
pub extern "C" fn ctc_result(
    state: &mut [u8; STATE_LENGTH],
    code: u8,
    mark: u8,
    late: u8,
    image: &[u8],
    marks: &[u8],
    space: &mut [u8],
    check: &mut [u8],
    answer: &mut [u8; ANSWER_LENGTH],
) -> u32
    ensures { left (ended result state.new answer.new) space.new check.new
        ≡ ctc_result (result_of code (is_set mark) late image.now marks.now)
        space.old check.old state.old answer.old }
{
    interface::ctc_result(state, code, mark, late, image, marks, space, check, answer)
}

/// A tick.
#[unsafe(no_mangle)]
pub extern "C" fn ctc_tick(state: &mut [u8; STATE_LENGTH], answer: &mut [u8; ANSWER_LENGTH]) -> u32
    ensures { plainly result state.new answer.new
        ≡ ctc_tick state.old answer.old }
{
    interface::ctc_tick(state, answer)
}

/// A reset.
#[unsafe(no_mangle)]
pub extern "C" fn ctc_reset(state: &mut [u8; STATE_LENGTH], answer: &mut [u8; ANSWER_LENGTH]) -> u32
    ensures { plainly result state.new answer.new
        ≡ ctc_reset state.old answer.old }
{
    interface::ctc_reset(state, answer)
}

/// A job queues a store, given as its address and its four operand bytes.
#[unsafe(no_mangle)]
pub extern "C" fn ctc_queue(
    state: &mut [u8; STATE_LENGTH],
    job: u8,
    address: u8,
    first: u8,
    second: u8,
    third: u8,
    fourth: u8,
    answer: &mut [u8; ANSWER_LENGTH],
) -> u32
    ensures { plainly result state.new answer.new
        ≡ ctc_queue job (store_of address first second third fourth) state.old answer.old }
{
    interface::ctc_queue(state, job, address, first, second, third, fourth, answer)
}

/// The store whose turn it is is handed over.
#[unsafe(no_mangle)]
pub extern "C" fn ctc_hand(state: &mut [u8; STATE_LENGTH], answer: &mut [u8; ANSWER_LENGTH]) -> u32
    ensures { plainly result state.new answer.new
        ≡ ctc_hand state.old answer.old }
{
    interface::ctc_hand(state, answer)
}
