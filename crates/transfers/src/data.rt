//! The data call: its refusals, the image of a write, its check bytes, and the words that it leaves.
ghost use Rattle.std.specs.Prelude.{◌≡◌, ◌≤◌, length};
ghost use Rattle.common.specs.Space.{overwrite};
ghost use Rattle.common.specs.Told.{refusal_number};
ghost use Rattle.records.specs.Image.{image_length};
ghost use Rattle.operations.specs.Store.{held_count};
ghost use Rattle.transfers.specs.Data.{check_store, host_with, data_refusal, write_image, check_bytes, data_check};
ghost use Rattle.transfers.specs.Data.{needed_bytes, bad_byte, runs_short, data_words};

use crate::after::Words;
use blockettes::{BLOCKETTE_LENGTH, CHECKS_LENGTH};
use common::copy;
use common::refusals::Refusal;
use operations::store::Store;
use records::build::put_image;
use records::layout::{blockette_count, image_length};
use records::place::{as_came, is_place};
use status::drives::Drive;
use status::words::Word;

/// How long the check store is.
pub const CHECK_STORE: usize = CHECKS_LENGTH;

/// The host's bytes for a write, and the place of the one that came with bad parity, or NO_PLACE.
#[derive(Clone, Copy)]
pub struct HostBytes<'a> {
    pub bytes: &'a [u8],
    pub place: usize,
}

/// Refused for a check store of another length, too little space, or a place that is not among the host bytes.
#[tactic(auto, unfolding(crate::specs::Data::data_refusal, common::specs::Pick::pick))]
pub fn check_data(
    drive: Drive,
    store: Store,
    handed: usize,
    place: usize,
    space: usize,
    check: usize,
) -> Result<(), Refusal>
    ensures { refusal_number result ≡ data_refusal drive store handed place space check }
{
    if check != CHECK_STORE {
        return Err(Refusal::CheckStoreLength);
    }
    if space < image_length(store.held_count(), drive.density) {
        return Err(Refusal::SpaceShort);
    }
    if !is_place(handed, place) {
        return Err(Refusal::NoSuchPlace);
    }
    Ok(())
}

impl HostBytes<'_> {
    /// The image of a write, at the start of the space: how long it is. What follows a bad byte is zeros, as what the
    /// host did not hand in.
    #[tactic(auto, using(crate::proofs::DataLaws::record_image_length, crate::proofs::DataLaws::record_part, crate::proofs::DataLaws::image_overwritten))]
    pub fn put_write_image(&self, store: Store, density: u8, space: &mut [u8]) -> usize
        requires { image_length (held_count store) density ≤ length space.old }
        ensures value { result ≡ length (write_image store (host_with self.now) density) }
        ensures needed { result ≡ image_length (held_count store) density }
        ensures space_after { space.new
            ≡ overwrite (write_image store (host_with self.now) density) space.old }
    {
        let came = &self.bytes[..as_came(self.bytes.len(), self.place)];
        let count = store.held_count();
        let from = came.len().min(store.second as usize);
        let end = came.len().min(from + count as usize);
        let needed = image_length(count, density);
        put_image(&came[from..end], count, density, &mut space[..needed]);
        needed
    }

    // Whether the host ran out before any bad byte.
    #[tactic(auto, unfolding(crate::specs::Data::runs_short))]
    fn runs_short(&self, store: Store) -> bool
        ensures { result ≡ runs_short store (host_with self.now) }
    {
        (self.bytes.len() < needed_bytes(store)) & !bad_byte(store, self.place)
    }
}

/// Both check blockettes of a GCR image, or zeros where it has none.
#[tactic(auto, using(records::proofs::ImageLaws::blockettes_few, crate::proofs::DataLaws::checks_left, crate::proofs::DataLaws::check_part), unfolding(crate::specs::Data::check_bytes, common::specs::Pick::pick))]
pub fn put_check_bytes(image: &[u8], count: u16, check: &mut [u8])
    requires image_len { length image.now ≡ image_length count 1 }
    requires check_len { length check.old ≡ check_store }
    ensures { check.new ≡ check_bytes image.now count }
{
    if count == 0 {
        check.fill(0);
    } else {
        let from = 2 + BLOCKETTE_LENGTH * blockette_count(count);
        copy(&image[from..], check);
    }
}

/// The check store after a data call: in GCR the check bytes of the image.
#[tactic(auto, using(crate::proofs::DataLaws::gcr_alike), unfolding(common::specs::Pick::pick))]
pub fn put_data_check(drive: Drive, store: Store, image: &[u8], check: &mut [u8])
    requires image_len { length image.now ≡ image_length (held_count store) drive.density }
    requires check_len { length check.old ≡ check_store }
    ensures { check.new ≡ data_check drive store image.now check.old }
{
    if drive.is_gcr() {
        put_check_bytes(image, store.held_count(), check);
    }
}

// The bytes that a store needs: those thrown away and those counted.
#[tactic(auto, unfolding(crate::specs::Data::needed_bytes, operations::specs::Store::thrown_away))]
fn needed_bytes(store: Store) -> usize
    ensures { result ≡ needed_bytes store }
{
    store.second as usize + store.held_count() as usize
}

// Whether a bad byte is among them.
#[tactic(auto, unfolding(crate::specs::Data::bad_byte))]
fn bad_byte(store: Store, place: usize) -> bool
    ensures { result ≡ bad_byte store place }
{
    place < needed_bytes(store)
}

impl Words {
    /// The words after a data call: bit 16 is set where a byte was bad, bit 18 where host bytes ran short, and in GCR
    /// tertiary and quintary are zeroed.
    #[tactic(auto, unfolding(crate::specs::Data::data_words, common::specs::Pick::pick))]
    pub fn data_words(self, drive: Drive, store: Store, host: &HostBytes) -> Words
        ensures { result ≡ data_words self drive store (host_with host.now) }
    {
        let outcome = self
            .outcome
            .with_host_errors(bad_byte(store, host.place), host.runs_short(store));
        if drive.is_gcr() {
            return Words {
                outcome,
                ..Words::default()
            };
        }
        Words { outcome, ..self }
    }
}
