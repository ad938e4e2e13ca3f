//! The builder. Each `put_` function fills the whole of the space that it is lent: `put_x` leaves there what `x` or
//! `x_of` defines.
ghost use Rattle.std.specs.Prelude.{◌≡◌, ◌+◌, ◌*◌, ◌≤◌, length, OnOk};
ghost use Rattle.common.specs.Space.{filled};
ghost use Rattle.common.specs.Told.{refusal_number};
ghost use Rattle.blockettes.specs.Blockettes.{blockette_length, checks_length};
ghost use Rattle.records.specs.Image.{checks_of, blockettes_of, body_of, image_of, image_length};
ghost use Rattle.records.specs.Count.{limit};
ghost use Rattle.records.specs.Build.{build_refusal, build_into};

use crate::count::{LIMIT, put_count_bytes};
use crate::layout::{blockette_count, has_blockettes, image_length};
use crate::place::{as_came, is_place};
use blockettes::{BLOCKETTE_LENGTH, put_check};
use common::put_filled;
use common::refusals::Refusal;

// Both check blockettes of n blockettes of data.
#[tactic(auto, unfolding(blockettes::specs::Blockettes::check_of))]
fn put_checks(bytes: &[u8], n: usize, space: &mut [u8])
    requires n_bound { n ≤ 256 }
    requires space_len { length space.old ≡ checks_length }
    ensures { space.new ≡ checks_of bytes.now n }
{
    let (odd, even) = space.split_at_mut(BLOCKETTE_LENGTH);
    put_check(odd, bytes, n, 1);
    put_check(even, bytes, n, 0);
}

// The blockettes of data and of check. Bytes that are missing are zeros.
#[tactic(auto, using(blockettes::proofs::Padded::check_filled), unfolding(crate::specs::Image::blockettes_of))]
fn put_blockettes(bytes: &[u8], n: usize, space: &mut [u8])
    requires n_bound { n ≤ 256 }
    requires bytes_len_bound { length bytes.now ≤ blockette_length * n }
    requires space_len { length space.old ≡ blockette_length * (n + 2) }
    ensures { space.new ≡ blockettes_of bytes.now n }
{
    let (data, checks) = space.split_at_mut(BLOCKETTE_LENGTH * n);
    put_filled(bytes, data);
    put_checks(bytes, n, checks);
}

// What follows the count. Bytes that are missing are zeros.
#[tactic(auto, using(common::proofs::SpaceLaws::filled_length, crate::proofs::ImageLaws::blockettes_hold, crate::proofs::ImageLaws::length_gcr, crate::proofs::ImageLaws::length_plain, crate::proofs::ImageLaws::blockettes_filled), unfolding(crate::specs::Image::body_of, common::specs::Space::filled, common::specs::Pick::pick))]
fn put_body(bytes: &[u8], count: u16, density: u8, space: &mut [u8])
    requires bytes_len_bound { length bytes.now ≤ count }
    requires space_len { length space.old + 2 ≡ image_length count density }
    ensures { space.new ≡ body_of (filled bytes.now count) density }
{
    if has_blockettes(count, density) {
        put_blockettes(bytes, blockette_count(count), space);
    } else {
        put_filled(bytes, space);
    }
}

/// The image of a record of this count. Bytes that are missing are zeros.
#[tactic(auto, using(crate::proofs::ImageLaws::length_two), unfolding(crate::specs::Image::image_of, common::specs::Space::filled))]
pub fn put_image(bytes: &[u8], count: u16, density: u8, image: &mut [u8])
    requires bytes_len_bound { length bytes.now ≤ count }
    requires image_len { length image.old ≡ image_length count density }
    ensures { image.new ≡ image_of (filled bytes.now count) density }
{
    let (front, body) = image.split_at_mut(2);
    put_count_bytes(count, front);
    put_body(bytes, count, density, body);
}

// Refused for too many bytes, too little space, or a place that is not in the bytes.
#[tactic(auto, unfolding(crate::specs::Build::build_refusal, common::specs::Pick::pick, crate::specs::Count::limit))]
fn check_build(count: usize, density: u8, place: usize, space: usize) -> Result<(), Refusal>
    ensures answered { refusal_number result ≡ build_refusal count density place space }
    ensures count { OnOk result (count ≤ limit) }
    ensures space { OnOk result (image_length count density ≤ space) }
{
    if LIMIT < count {
        return Err(Refusal::WrongLength);
    }
    if space < image_length(count as u16, density) {
        return Err(Refusal::SpaceShort);
    }
    if !is_place(count, place) {
        return Err(Refusal::NoSuchPlace);
    }
    Ok(())
}

/// Bytes to an image, at the start of the space. Those behind the place are zeros, which put_image fills in without a
/// pass of their own.
#[tactic(auto, using(common::proofs::RefusalLaws::refused_not_done, crate::proofs::PlaceLaws::built_part, crate::proofs::PlaceLaws::written_length, crate::proofs::ImageLaws::image_length_lem), unfolding(crate::specs::Build::build_into, crate::specs::Count::limit, common::specs::Space::overwrite, common::specs::Pick::pick))]
pub fn build(bytes: &[u8], density: u8, place: usize, image: &mut [u8]) -> Result<(), Refusal>
    ensures answered { refusal_number result ≡ build_refusal (length bytes.now) density place
        (length image.old) }
    ensures written { image.new ≡ build_into bytes.now density place image.old }
{
    let length = bytes.len();
    check_build(length, density, place, image.len())?;
    let count = length as u16;
    let needed = image_length(count, density);
    let came = as_came(length, place);
    put_image(&bytes[..came], count, density, &mut image[..needed]);
    Ok(())
}
