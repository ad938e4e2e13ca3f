//! A field is read: what it spells, or nothing.
ghost use Rattle.std.specs.Prelude.{◌≡◌, ◌≤◌, ◌<◌, ◌*◌, min, length, take, IfSome};
ghost use Rattle.std.specs.Bool.{then_some};
ghost use Rattle.common.specs.Space.{overwrite};
ghost use Rattle.text.specs.Limits.{field_cap};
ghost use Rattle.text.specs.Digits.{digit_value, is_digit, all_digits, capped_decimal, is_byte, byte_of, is_bytes};
ghost use Rattle.text.specs.Digits.{bytes_of, is_decimal, decimal_of, byte_value};
ghost use Rattle.text.specs.Fields.{part_of, part_end, field_of, after, after_field};

use crate::limits::FIELD_CAP;
use memchr::memchr;

// The value of a digit: a letter has 9 more than its low half.
#[tactic(auto, unfolding(crate::specs::Digits::digit_value, common::specs::Pick::pick))]
fn digit_value(d: u8) -> u8
    ensures value { result ≡ digit_value d }
    ensures below { result < 16 }
{
    if d <= b'9' {
        return d % 16;
    }
    (d % 16 + 9) % 16
}

// Whether a byte is a digit of a base.
#[tactic(auto, unfolding(crate::specs::Digits::is_digit))]
fn is_digit(base: u8, d: u8) -> bool
    ensures { result ≡ is_digit base d }
{
    let value = digit_value(d);
    (((b'0' <= d) & (d <= b'9')) | ((b'A' <= d) & (d <= b'F'))) & (value < base)
}

// The value of a digit of a base.
fn digit_of(base: u8, d: u8) -> Option<u8>
    ensures value { result ≡ then_some (is_digit base d) (digit_value d) }
    ensures below { IfSome result (λ v. v < 16) }
{
    is_digit(base, d).then_some(digit_value(d))
}

/// Whether every byte is a digit. It does not stop at the first that is not: a long field is then looked at in wide
/// steps.
#[tactic(auto, using(crate::proofs::DigitLaws::digits_next, crate::proofs::DigitLaws::digits_end))]
pub fn all_digits(base: u8, s: &[u8]) -> bool
    ensures { result ≡ all_digits base s.now }
{
    let mut good = true;
    for &d in s {
        good &= is_digit(base, d);
    }
    good
}

/// The byte of a field of two digits.
#[tactic(auto, unfolding(crate::specs::Digits::is_byte, crate::specs::Digits::byte_of, crate::specs::Digits::byte_value, crate::specs::Digits::all_digits))]
pub fn byte_of(field: &[u8]) -> Option<u8>
    ensures { result ≡ then_some (is_byte field.now) (byte_of field.now) }
{
    let [high, low] = field else {
        return None;
    };
    Some(16 * digit_of(16, *high)? + digit_of(16, *low)?)
}

/// The number that digits spell, or FIELD_CAP where it is more.
pub fn capped_decimal(s: &[u8]) -> Option<usize>
    ensures { result ≡ then_some (all_digits 10 s.now) (capped_decimal s.now) }
{
    let mut value = 0;
    for &d in s {
        value = (10 * value + digit_of(10, d)? as usize).min(FIELD_CAP);
    }
    Some(value)
}

/// The number of a field of one decimal, up to a limit.
#[tactic(auto, using(crate::proofs::DigitLaws::limit_capped), unfolding(crate::specs::Digits::is_decimal))]
pub fn decimal_of(limit: usize, field: &[u8]) -> Option<usize>
    requires { limit < field_cap }
    ensures value { result ≡ then_some (is_decimal limit field.now) (decimal_of field.now) }
    ensures within { IfSome result (λ n. n ≤ limit) }
{
    let value = capped_decimal(field)?;
    (!field.is_empty() & (value <= limit)).then_some(value)
}

// The byte that two digits spell.
#[tactic(auto, unfolding(crate::specs::Digits::byte_value))]
fn byte_value(high: u8, low: u8) -> u8
    ensures { result ≡ byte_value high low }
{
    16 * digit_value(high) + digit_value(low)
}

/// The digits of at most so many bytes. A clause speaks of the bytes, `hex_bytes`, or, as `lent`, of the text that the
/// digits are.
#[derive(Clone, Copy)]
pub struct Hex<'a, const MOST: usize> {
    digits: &'a [u8],
    ghost fits: { length digits.now ≤ 2 * MOST },
}

impl<'a, const MOST: usize> Hex<'a, MOST> {
    ghost use Rattle.text.specs.Hex.{hex_bytes, hex_read};

    /// The digits of a field that is a string of bytes: the field itself, so that two reads of one field are the same
    /// (`read_same`).
    #[tactic(auto, unfolding(crate::specs::Digits::is_bytes))]
    pub fn read_bytes(field: &'a [u8]) -> Option<Self>
        requires { MOST ≤ field_cap }
        ensures bytes { hex_read result ≡ then_some (is_bytes MOST field.now) (bytes_of field.now) }
        ensures lent { IfSome result (λ h. h.digits ≡ field.entry) }
    {
        let digits = all_digits(16, field);
        let n = field.len();
        if (n % 2 == 0) & ((n <= 2 * MOST) & digits) {
            return Some(Hex { digits: field });
        }
        None
    }

    /// Puts the bytes at the start of a space, and tells how many they are.
    #[tactic(auto, using(crate::proofs::DigitLaws::bytes_length, crate::proofs::DigitLaws::bytes_overwritten))]
    pub fn overwrite(&self, space: &mut [u8]) -> usize
        requires { min (length (hex_bytes self.now)) MOST ≤ length space.old }
        ensures count { result ≡ length (hex_bytes self.now) }
        ensures within { result ≤ MOST }
        ensures put { space.new ≡ overwrite (hex_bytes self.now) space.old }
        ensures front { take result space.new ≡ hex_bytes self.now }
    {
        let digits = self.digits;
        let count = digits.len() / 2;
        let bytes = &mut space[..count];
        for (at, byte) in bytes.iter_mut().enumerate() {
            *byte = byte_value(digits[2 * at], digits[2 * at + 1]);
        }
        count
    }
}

/// What stands before the first sign of a kind, and what comes after it.
pub fn part_of(sign: u8, s: &[u8]) -> (&[u8], &[u8])
    ensures before { result.0.now ≡ part_of sign s.now }
    ensures behind { result.1.now ≡ after s.now (part_end sign s.now) }
{
    match memchr(sign, s) {
        Some(end) => (&s[..end], &s[end + 1..]),
        None => (s, &s[s.len()..]),
    }
}

/// The first field, and what comes after its comma.
#[tactic(auto, unfolding(crate::specs::Fields::after_field))]
pub fn field_of(s: &[u8]) -> (&[u8], &[u8])
    ensures field { result.0.now ≡ field_of s.now }
    ensures rest { result.1.now ≡ after_field s.now }
{
    part_of(b',', s)
}

#[cfg(test)]
mod tests {
    use super::*;
    use std::test::Fail;

    // A field that is read twice.
    fn both_reads<'a>(field: &'a [u8]) -> (Option<Hex<'a, 2>>, Option<Hex<'a, 2>>)
        ensures { result.0 ≡ result.1 }
    {
        (Hex::read_bytes(field), Hex::read_bytes(field))
    }

    #[test]
    fn reads_bytes_of_a_field(rt: HostRuntime) -> Result<(), Fail> {
        let (first, second) = both_reads(b"0A1F");
        for read in [first, second] {
            let mut space = [9; 3];
            assert!(rt; read.is_some());
            if let Some(digits) = read {
                assert!(rt; digits.overwrite(&mut space) == 2);
            }
            assert!(rt; space == [10, 31, 9]);
        }
        Ok(())
    }
}
