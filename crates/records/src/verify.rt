//! Whether the check blockettes of a GCR image fit its data.
ghost use Rattle.std.specs.Prelude.{◌≡◌, ◌+◌, ◌*◌, ◌≤◌, length};
ghost use Rattle.blockettes.specs.Blockettes.{blockette_length};
ghost use Rattle.records.specs.Image.{blockette_count};
ghost use Rattle.records.specs.Verify.{check_fits, verify, unfit_number, told_fit};

use crate::count::count_of;
use crate::layout::{GCR, blockette_count, image_length};
use blockettes::{BLOCKETTE_LENGTH, blockette_at, put_check};
use common::refusals::Refusal;
use passes::same_blockettes;

// What the answer has of a parity that does not fit.
const UNFIT_EVEN: u32 = 32;

const UNFIT_ODD: u32 = 64;

/// Which of the check blockettes fit.
#[derive(Clone, Copy, Debug, PartialEq, Eq)]
pub struct Fit {
    pub odd: bool,
    pub even: bool,
}

// As C is answered.
impl From<Fit> for u32 {
    ghost from_gives = { λ fit number. number ≡ unfit_number fit };

    #[tactic(auto, unfolding(crate::specs::Verify::unfit_number, common::specs::Pick::pick))]
    fn from(fit: Fit) -> u32 {
        let even = if fit.even { 0 } else { UNFIT_EVEN };
        let odd = if fit.odd { 0 } else { UNFIT_ODD };
        even + odd
    }
}

// Whether the check blockette of a parity is the XOR of its data, of the blockettes of a record with both check
// blockettes behind them.
#[tactic(auto, unfolding(crate::specs::Verify::check_fits))]
fn check_fits(blockettes: &[u8], count: u16, parity: usize) -> bool
    requires parity_bound { parity ≤ 1 }
    requires blockettes_len { length blockettes.now ≡ blockette_length * (blockette_count count + 2) }
    ensures { result ≡ check_fits blockettes.now (blockette_count count) parity }
{
    let n = blockette_count(count);
    let mut check = [0u8; BLOCKETTE_LENGTH];
    put_check(&mut check, blockettes, n, parity);
    same_blockettes(&check, blockette_at(blockettes, n + 1 - parity))
}

/// Refused for a wrong length, or which of the two parities fit. Without check blockettes both do.
#[tactic(auto, using(crate::proofs::ImageLaws::length_some), unfolding(crate::specs::Verify::verify, crate::specs::Verify::unfit_checks, crate::specs::Verify::unfit_number, common::specs::Pick::pick))]
pub fn verify(image: &[u8]) -> Result<Fit, Refusal>
    ensures { told_fit result ≡ verify image.now }
{
    if image.len() < 2 {
        return Err(Refusal::WrongLength);
    }
    let count = count_of(image);
    if image.len() != image_length(count, GCR) {
        return Err(Refusal::WrongLength);
    }
    if count == 0 {
        return Ok(Fit {
            odd: true,
            even: true,
        });
    }
    let blockettes = &image[2..];
    Ok(Fit {
        odd: check_fits(blockettes, count, 1),
        even: check_fits(blockettes, count, 0),
    })
}
