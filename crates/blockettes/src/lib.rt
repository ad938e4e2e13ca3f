//! Blockettes, put together by XOR. What the builder and the restorer of records have in common.
#![tactic(auto)]

ghost use Rattle.std.specs.Prelude.{◌≡◌, ◌+◌, ◌*◌, ◌≤◌, ◌<◌, length, take};
ghost use Rattle.blockettes.specs.Xor.{◌⊕◌};
ghost use Rattle.blockettes.specs.Blockettes.{blockette_length, parity_stride, half_length, places_limit};
ghost use Rattle.blockettes.specs.Blockettes.{blockette_at, fold_upward, half_of, whole_of, check_of, others_of};

/// The bytes of a blockette.
pub const BLOCKETTE_LENGTH: usize = 256;

/// The bytes of both check blockettes.
pub const CHECKS_LENGTH: usize = 512;

// From a blockette to the next of its parity.
const PARITY_STRIDE: usize = 512;

// The bytes of half a blockette, which are gathered at once: they fit in the registers, and those of a whole one do
// not.
const HALF_LENGTH: usize = 128;

/// The blockette at a place, which is whole.
#[tactic(auto, unfolding(crate::specs::Blockettes::blockette_at))]
pub fn blockette_at(bytes: &[u8], place: usize) -> &[u8]
    requires { blockette_length * place + blockette_length ≤ length bytes.now }
    ensures found { result.now ≡ blockette_at bytes.now place }
    ensures whole { length result.now ≡ blockette_length }
{
    let start = BLOCKETTE_LENGTH * place;
    &bytes[start..start + BLOCKETTE_LENGTH]
}

// The XOR of a string and another, as long as the first. By places: of the elements that `iter_mut().zip(from)` writes
// no proof knows anything afterwards.
fn xor(into: &mut [u8], from: &[u8])
    ensures { into.new ≡ into.old ⊕ from.now }
{
    for i in 0..into.len().min(from.len()) {
        into[i] ^= from[i];
    }
}

// The XOR of a string and the blockette at a place, or what there is of it.
#[tactic(auto, unfolding(crate::specs::Blockettes::blockette_at))]
fn xor_at(into: &mut [u8], bytes: &[u8], place: usize)
    requires { place ≤ places_limit }
    ensures { into.new ≡ into.old ⊕ blockette_at bytes.now place }
{
    let start = bytes.len().min(BLOCKETTE_LENGTH * place);
    let end = bytes.len().min(start + BLOCKETTE_LENGTH);
    xor(into, &bytes[start..end]);
}

// The XOR of half a blockette and those of some others, every second from a place upward. What follows the half is not
// looked at. Downward, the compiler does not take several bytes at once.
#[tactic(auto, using(crate::proofs::Halves::half_put), unfolding(crate::specs::Blockettes::fold_upward, crate::specs::Xor::xor_all))]
fn fold_upward(into: &mut [u8], bytes: &[u8], first: usize, count: usize)
    requires into_len { length into.old ≡ half_length }
    requires half_length_in_bounds { blockette_length * first + parity_stride * count + half_length
        ≤ length bytes.now + parity_stride }
    ensures { into.new ≡ fold_upward into.old bytes.now first count }
{
    for t in 0..count {
        let start = BLOCKETTE_LENGTH * first + PARITY_STRIDE * t;
        xor(into, &bytes[start..start + HALF_LENGTH]);
    }
}

// The half of a check that the bytes begin with, gathered in an array of its own: the compiler then knows that it does
// not lie in the bytes, and keeps it in registers.
fn put_half(space: &mut [u8], bytes: &[u8], first: usize, count: usize)
    requires space_len { length space.old ≡ half_length }
    requires half_length_in_bounds { blockette_length * first + parity_stride * count + half_length
        ≤ length bytes.now + parity_stride }
    ensures { space.new ≡ half_of bytes.now first count }
{
    let mut half = [0u8; HALF_LENGTH];
    fold_upward(&mut half, bytes, first, count);
    space.copy_from_slice(&half);
}

// The check of some whole blockettes, every second from a place upward.
fn put_whole(space: &mut [u8], bytes: &[u8], first: usize, count: usize)
    requires space_len { length space.old ≡ blockette_length }
    requires first_bound { first ≤ 1 }
    requires count_in_bounds { blockette_length * first + parity_stride * count ≤ length bytes.now + blockette_length }
    ensures { space.new ≡ whole_of bytes.now first count }
{
    let start = bytes.len().min(HALF_LENGTH);
    let (front, back) = space.split_at_mut(HALF_LENGTH);
    put_half(front, bytes, first, count);
    put_half(back, &bytes[start..], first, count);
}

/// The check blockette of one parity, of n blockettes in all: those that are whole, and then what there is of the last.
#[tactic(auto, using(crate::proofs::Several::upward_turn), unfolding(crate::specs::Blockettes::fold_upward, crate::specs::Xor::xor_all))]
pub fn put_check(space: &mut [u8], bytes: &[u8], n: usize, parity: usize)
    requires space_len { length space.old ≡ blockette_length }
    requires parity_bound { parity ≤ 1 }
    requires n_le_places_limit { n ≤ places_limit }
    ensures { space.new ≡ check_of bytes.now n parity }
{
    let count = (n + 1 - parity) / 2;
    let first = (n + 1 - parity) % 2;
    let whole = count.min((bytes.len() / BLOCKETTE_LENGTH + 1 - first) / 2);
    put_whole(space, bytes, first, whole);
    for t in whole..count {
        xor_at(space, bytes, first + 2 * t);
    }
}

/// What restores the blockette at a place, of n in all: the XOR of the others of its parity. It is that of all of them,
/// with the one at the place once more, which takes it out again. The space may be shorter than a blockette.
#[tactic(auto, using(crate::proofs::Others::others_by_check))]
pub fn put_others(space: &mut [u8], bytes: &[u8], n: usize, place: usize)
    requires space_len_bound { length space.old ≤ blockette_length }
    requires place_lt_n { place < n }
    requires n_le_places_limit { n ≤ places_limit }
    ensures { space.new ≡ take (length space.old) (others_of bytes.now n place) }
{
    let mut others = [0u8; BLOCKETTE_LENGTH];
    put_check(&mut others, bytes, n, (n - 1 - place) % 2);
    xor_at(&mut others, bytes, place);
    space.copy_from_slice(&others[..space.len()]);
}
