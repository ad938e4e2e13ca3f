//! A record's count: 16 bits, rotated right by one, high byte first.
ghost use Rattle.std.specs.Prelude.{◌≡◌, ◌≤◌, length};
ghost use Rattle.records.specs.Count.{rotated, unrotated, count_bytes, count_of};

/// The most bytes of a record: as many as 16 bits count.
pub const LIMIT: usize = 65535;

// A count as it is written.
#[tactic(auto, using(crate::proofs::Rotations::rotated_right), unfolding(crate::specs::Count::rotated))]
fn rotated(count: u16) -> u16
    ensures { result ≡ rotated count }
{
    count.rotate_right(1)
}

// The count that a written word says.
#[tactic(auto, using(crate::proofs::Rotations::rotated_left), unfolding(crate::specs::Count::unrotated))]
fn unrotated(word: u16) -> u16
    ensures { result ≡ unrotated word }
{
    word.rotate_left(1)
}

/// Writes a count.
#[tactic(auto, unfolding(crate::specs::Count::count_bytes))]
pub fn put_count_bytes(count: u16, space: &mut [u8])
    requires { length space.old ≡ 2 }
    ensures { space.new ≡ count_bytes count }
{
    space.copy_from_slice(&rotated(count).to_be_bytes());
}

/// The count that an image says.
#[tactic(auto, unfolding(crate::specs::Count::count_of))]
pub fn count_of(image: &[u8]) -> u16
    requires { 2 ≤ length image.now }
    ensures { result ≡ count_of image.now }
{
    unrotated(u16::from_be_bytes([image[0], image[1]]))
}
