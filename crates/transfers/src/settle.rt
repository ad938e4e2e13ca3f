//! The data call and the result, carried out for one drive.
ghost use Rattle.std.specs.Prelude.{◌≡◌, length};
ghost use Rattle.common.specs.Space.{overwrite};
ghost use Rattle.transfers.specs.Data.{host_with, data_refusal, write_image, data_check, settle_data};
ghost use Rattle.transfers.specs.Results.{result_with, result_refusal, result_into, result_check_into, settle_result};

use crate::after::{After, Words, Written};
use crate::data::{HostBytes, put_data_check};
use crate::delivery::put_bytes_read;
use crate::results::result_gap;
use crate::verdict::TapeResult;
use operations::operation::Operation;
use operations::store::Store;
use status::drives::Drive;

/// A data call that is not refused: the image stands at the start of the space afterwards.
#[tactic(auto, using(common::proofs::SpaceLaws::overwritten_front, common::proofs::SpaceLaws::overwritten_room, crate::proofs::DataLaws::record_image_length, crate::proofs::DataLaws::data_ready), unfolding(crate::specs::Data::settle_data))]
pub fn settle_data(
    words: Words,
    drive: Drive,
    store: Store,
    host: &HostBytes,
    space: &mut [u8],
    check: &mut [u8],
) -> Written
    requires { data_refusal drive store (length host.now.bytes.now) host.now.place (length space.old)
        (length check.old) ≡ 0 }
    ensures value { result ≡ settle_data words drive store (host_with host.now) }
    ensures space_after { space.new
        ≡ overwrite (write_image store (host_with host.now) drive.density) space.old }
    ensures check_after { check.new
        ≡ data_check drive store (write_image store (host_with host.now) drive.density)
        check.old }
{
    let words = words.data_words(drive, store, host);
    let bytes = host.put_write_image(store, drive.density, space);
    put_data_check(drive, store, &space[..bytes], check);
    Written { words, bytes }
}

/// A result that is not refused: the bytes that it delivers stand at the start of the space afterwards, as many as fit.
#[tactic(auto, using(crate::proofs::ReadLaws::read_length, crate::proofs::ResultLaws::result_passed), unfolding(operations::specs::Store::held_count, crate::specs::Results::settle_result))]
pub fn settle_result(
    words: Words,
    drive: Drive,
    operation: Operation,
    store: Store,
    tape: &TapeResult,
    space: &mut [u8],
    check: &mut [u8],
) -> After
    requires { result_refusal drive operation store (result_with tape.now) (length check.old)
        ≡ 0 }
    ensures value { result
        ≡ settle_result words drive operation store (result_with tape.now)
        (length space.old) check.old }
    ensures space_after { space.new
        ≡ result_into drive operation store (result_with tape.now)
        space.old check.old }
    ensures check_after { check.new
        ≡ result_check_into drive operation store (result_with tape.now)
        check.old }
{
    let verdict = tape.verdict_of(drive, operation, store);
    let delivered = verdict.delivered_bytes(operation, tape.image, check);
    let told = verdict.result_words(words, operation, store, tape, delivered.len(), space.len());
    let bytes = put_bytes_read(operation, delivered, space);
    verdict.put_result_check(tape.image, check);
    After {
        words: told,
        gap: result_gap(drive, operation, verdict.code),
        bytes,
    }
}
