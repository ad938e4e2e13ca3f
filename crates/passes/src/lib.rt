//! One record out of two passes, blockette by blockette: which of them are unlike, and the merged blockettes with their
//! marks.
#![tactic(auto)]

ghost use Rattle.std.specs.Prelude.{◌≡◌, ◌+◌, ◌*◌, ◌≤◌, ◌<◌, length, get_or};
ghost use Rattle.blockettes.specs.Blockettes.{blockette_length, blockette_at};
ghost use Rattle.passes.specs.Passes.{same_bytes, same_blockettes, clash_at, clashes, takes_second};
ghost use Rattle.passes.specs.Passes.{merged_mark, merged_blockette, merged_marks, merged_blockettes};

use blockettes::{BLOCKETTE_LENGTH, blockette_at};
use common::copy;
use marks::is_error;

// The first bytes of a blockette that are compared by themselves.
const FRONT: usize = 16;

// Where the others begin: an image's blockettes stand two bytes behind its start, so from here on their vectors are
// aligned where the image is.
const ALIGNED: usize = 14;

/// The blockettes of a pass, one behind the other, and a mark for each.
#[derive(Clone, Copy)]
pub struct Blockettes<'a> {
    pub bytes: &'a [u8],
    pub marks: &'a [u8],
    ghost whole: { length bytes.now ≡ blockette_length * length marks.now },
}

// Whether two strings of one length have the same bytes. All are looked at, since what has no way out takes many in a
// step: `a == b`, which has one, takes one and a half times as long.
fn same_bytes(a: &[u8], b: &[u8]) -> bool
    requires { length b.now ≡ length a.now }
    ensures { result ≡ same_bytes a.now b.now }
{
    a.iter().zip(b).fold(true, |same, (x, y)| same & (x == y))
}

/// Whether two blockettes have. Two bytes are compared twice, so that both parts begin with a whole vector.
pub fn same_blockettes(a: &[u8], b: &[u8]) -> bool
    requires a_len { length a.now ≡ blockette_length }
    requires b_len { length b.now ≡ blockette_length }
    ensures { result ≡ same_blockettes a.now b.now }
{
    let front = same_bytes(&a[..FRONT], &b[..FRONT]);
    let others = same_bytes(&a[ALIGNED..], &b[ALIGNED..]);
    front & others
}

// Whether a blockette comes from the second pass: it is bad in the first and good in the second.
#[tactic(auto, unfolding(crate::specs::Passes::takes_second))]
fn takes_second(first_mark: u8, second_mark: u8) -> bool
    ensures { result ≡ takes_second first_mark second_mark }
{
    is_error(first_mark) & !is_error(second_mark)
}

// Its mark.
#[tactic(auto, unfolding(crate::specs::Passes::merged_mark, common::specs::Pick::pick))]
fn merged_mark(first_mark: u8, second_mark: u8) -> u8
    ensures { result ≡ merged_mark first_mark second_mark }
{
    if takes_second(first_mark, second_mark) {
        return second_mark;
    }
    first_mark
}

impl Blockettes<'_> {
    // The one at a place.
    fn blockette_at(&self, place: usize) -> &[u8]
        requires { place < length self.now.marks.now }
        ensures found { result.now ≡ blockette_at self.now.bytes.now place }
        ensures whole { length result.now ≡ blockette_length }
    {
        blockette_at(self.bytes, place)
    }

    // Whether the blockette at a place is good in both passes and unlike.
    #[tactic(auto, unfolding(crate::specs::Passes::clash_at))]
    fn clash_at(&self, other: &Blockettes, place: usize) -> bool
        requires place_in_bounds { place < length self.now.marks.now }
        requires as_many { length other.now.marks.now ≡ length self.now.marks.now }
        ensures { result ≡ clash_at self.now.bytes.now self.now.marks.now other.now.bytes.now
            other.now.marks.now place }
    {
        if is_error(self.marks[place]) | is_error(other.marks[place]) {
            return false;
        }
        !same_blockettes(self.blockette_at(place), other.blockette_at(place))
    }

    /// Whether any is. From the last to the first: those compared last are in the processor's nearest cache when the
    /// merged ones are put, from the first on.
    #[tactic(auto, using(crate::proofs::PassLaws::none_found), unfolding(crate::specs::Passes::clashes))]
    pub fn clashes(&self, other: &Blockettes) -> bool
        requires { length other.now.marks.now ≡ length self.now.marks.now }
        ensures { result ≡ clashes self.now.bytes.now self.now.marks.now other.now.bytes.now
            other.now.marks.now }
    {
        for place in (0..self.marks.len()).rev() {
            if self.clash_at(other, place) {
                return true;
            }
        }
        false
    }
}

// The merged blockette at a place. Its part of the image has that of the first pass, which stays where it is not the
// second's.
#[tactic(auto, unfolding(common::specs::Pick::pick))]
fn put_merged_blockette(first_mark: u8, second: &Blockettes, place: usize, part: &mut [u8])
    requires place_in_bounds { place < length second.now.marks.now }
    requires part_len { length part.old ≡ blockette_length }
    ensures { part.new ≡ merged_blockette first_mark (get_or second.now.marks.now place 0) part.old
        (blockette_at second.now.bytes.now place) }
{
    if takes_second(first_mark, second.marks[place]) {
        copy(second.blockette_at(place), part);
    }
}

/// The merged blockettes. The image has those of the first pass.
#[tactic(auto, unfolding(crate::specs::Passes::merged_blockettes, crate::specs::Passes::joined))]
pub fn put_merged_blockettes(first_marks: &[u8], second: &Blockettes, image: &mut [u8])
    requires second_marks_len { length second.now.marks.now ≡ length first_marks.now }
    requires image_len { length image.old ≡ blockette_length * length first_marks.now }
    ensures { image.new ≡ merged_blockettes image.old first_marks.now
        second.now.bytes.now second.now.marks.now }
{
    for at in 0..first_marks.len() {
        let start = BLOCKETTE_LENGTH * at;
        let end = start + BLOCKETTE_LENGTH;
        put_merged_blockette(first_marks[at], second, at, &mut image[start..end]);
    }
}

/// Their marks, which fill their space.
#[tactic(auto, unfolding(crate::specs::Passes::merged_marks, crate::specs::Passes::joined))]
pub fn put_merged_marks(first_marks: &[u8], second_marks: &[u8], marks: &mut [u8])
    requires second_marks_len { length second_marks.now ≡ length first_marks.now }
    requires marks_len { length marks.old ≡ length first_marks.now }
    ensures { marks.new ≡ merged_marks first_marks.now second_marks.now }
{
    for (at, mark) in marks.iter_mut().enumerate() {
        *mark = merged_mark(first_marks[at], second_marks[at]);
    }
}
