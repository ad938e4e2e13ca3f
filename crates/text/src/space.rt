//! Text that is put into a fixed space, one thing behind the other.
ghost use Rattle.std.specs.Prelude.{◌≡◌, ◌+◌, ◌*◌, ◌≤◌, ◌<◌, ◌++◌, [], ◌∷◌, take, length, List, ℕ};
ghost use Rattle.text.specs.Limits.{refusal_most, record_most};
ghost use Rattle.text.specs.Print.{digit_of, byte_text, bytes_text, decimal_text, refusal_text, record_text};

use crate::limits::DECIMAL_MOST;
use std::marker::Model;

/// Text that grows at the start of a fixed space. A clause sees the text.
#[derive(Drop)]
pub struct Text<const N: usize> {
    space: [u8; N],
    end: usize,
}

impl<const N: usize> Model for Text<N> {
    ghost Value = { List ℕ };

    ghost view = { λ t. take t.end t.space };

    ghost invariant = { λ t. t.end ≤ N };
}

// A digit below 16.
#[tactic(auto, unfolding(crate::specs::Print::digit_of, common::specs::Pick::pick))]
fn digit_of(n: u8) -> u8
    requires { n < 16 }
    ensures { result ≡ digit_of n }
{
    if n < 10 {
        return b'0' + n;
    }
    b'A' + n - 10
}

// The two digits of a byte.
#[tactic(auto, unfolding(crate::specs::Print::byte_text))]
fn byte_text(byte: u8) -> [u8; 2]
    ensures { result ≡ byte_text byte }
{
    [digit_of(byte / 16), digit_of(byte % 16)]
}

// Bytes in hexadecimal, in a slice of their length. It has no end to store at each digit: the loop over many bytes is
// then made of wide steps.
fn put_bytes(bytes: &[u8], space: &mut [u8])
    requires { length space.old ≡ 2 * length bytes.now }
    ensures { space.new ≡ bytes_text bytes.now }
{
    for (at, &byte) in bytes.iter().enumerate() {
        let [high, low] = byte_text(byte);
        space[2 * at] = high;
        space[2 * at + 1] = low;
    }
}

impl<const N: usize> Text<N> {
    pub fn new() -> Self
        ensures { result ≡ [] }
    {
        Text {
            space: [0; N],
            end: 0,
        }
    }

    pub fn len(&self) -> usize
        ensures same { result ≡ length self.now }
        ensures fits { length self.now ≤ N }
    {
        self.end
    }

    pub fn as_bytes(&self) -> &[u8]
        ensures { result.now ≡ self.now }
    {
        &self.space[..self.end]
    }

    pub fn clear(&mut self)
        ensures { self.new ≡ [] }
    {
        self.end = 0;
    }

    /// One byte of text.
    pub fn put(&mut self, byte: u8)
        requires { length self.old < N }
        ensures { self.new ≡ self.old ++ (byte ∷ []) }
    {
        self.space[self.end] = byte;
        self.end += 1;
    }

    /// A text as it stands.
    pub fn put_all(&mut self, text: &[u8])
        requires { length self.old + length text.now ≤ N }
        ensures { self.new ≡ self.old ++ text.now }
    {
        let end = self.end + text.len();
        let space = &mut self.space[..];
        space[self.end..end].copy_from_slice(text);
        self.end = end;
    }

    /// A byte in hexadecimal.
    pub fn put_byte(&mut self, byte: u8)
        requires { length self.old + 2 ≤ N }
        ensures fits { length self.new ≡ length self.old + 2 }
        ensures text { self.new ≡ self.old ++ byte_text byte }
    {
        self.put_all(&byte_text(byte));
    }

    /// Bytes in hexadecimal.
    pub fn put_bytes(&mut self, bytes: &[u8])
        requires { length self.old + 2 * length bytes.now ≤ N }
        ensures fits { length self.new ≡ length self.old + 2 * length bytes.now }
        ensures text { self.new ≡ self.old ++ bytes_text bytes.now }
    {
        let end = self.end + 2 * bytes.len();
        let space = &mut self.space[..];
        put_bytes(bytes, &mut space[self.end..end]);
        self.end = end;
    }

    /// The number of a refusal.
    #[tactic(auto, using(crate::proofs::TextLaws::one_digit, crate::proofs::TextLaws::two_digits))]
    pub fn put_refusal(&mut self, number: u32)
        requires { length self.old + refusal_most ≤ N }
        ensures fits { length self.new ≤ length self.old + refusal_most }
        ensures text { self.new ≡ self.old ++ refusal_text number }
    {
        if number < 10 {
            return self.put(digit_of(number as u8));
        }
        self.put(digit_of((number / 10 % 10) as u8));
        self.put(digit_of((number % 10) as u8));
    }

    /// A number in decimal, of at most so many digits.
    #[tactic(auto, using(crate::proofs::TextLaws::decimal_none, crate::proofs::TextLaws::decimal_one, crate::proofs::TextLaws::decimal_more))]
    pub fn put_decimal(&mut self, most: usize, n: u32)
        requires { length self.old + most ≤ N }
        ensures fits { length self.new ≤ length self.old + most }
        ensures text { self.new ≡ self.old ++ decimal_text most n }
    {
        if most == 0 {
            return;
        }
        let ones = digit_of((n % 10) as u8);
        if n < 10 {
            return self.put(ones);
        }
        self.put_decimal(most - 1, n / 10);
        self.put(ones);
    }

    /// A record.
    #[tactic(auto, unfolding(crate::specs::Print::record_text))]
    pub fn put_record(&mut self, code: u8, motion: u8, count: u32)
        requires { length self.old + record_most ≤ N }
        ensures fits { length self.new ≤ length self.old + record_most }
        ensures text { self.new ≡ self.old ++ record_text code motion count }
    {
        self.put_byte(code);
        self.put(b':');
        self.put_decimal(DECIMAL_MOST, motion as u32);
        self.put(b':');
        self.put_decimal(DECIMAL_MOST, count);
    }
}
