//! Status words: four bytes, high byte first.
//!
//!   primary   bit 0 changed, 1 enable, 2 retry, 3-5 track, 6-7 drive
//!             bit 8 mark, 9-10 motion, 11-15 code
//!             bit 16 host parity, 17 overflow, 18 underflow, 19 write data late, 20 read data late,
//!             21 supplied count, 22 count valid, 23 density
//!             bits 24-31 report
ghost use Rattle.std.specs.Prelude.{◌≡◌, ◌≤◌};
ghost use Rattle.status.specs.Words.{bit_of, no_outcome, with_count, with_host_errors, any_bit, primary_first};
ghost use Rattle.status.specs.Words.{primary_second, primary_third, primary_of, secondary_word, digits_of, tertiary_of};
ghost use Rattle.status.specs.Words.{quintary_of, reports_word};
ghost use Rattle.marks.specs.Scan.{told_defect};

use crate::drives::{Drive, Drives};
use marks::Defect;

/// The last motion and code that primary has bits for, and the most that secondary counts.
pub const LAST_MOTION: u8 = 3;

pub const LAST_CODE: u8 = 31;

pub const COUNT_LIMIT: u32 = 65535;

#[derive(Clone, Copy, Default)]
pub struct Word {
    pub b0: u8,
    pub b1: u8,
    pub b2: u8,
    pub b3: u8,
}

/// What a store came to: the final code, the motion and the count, which secondary shows.
#[derive(Clone, Copy, Default)]
pub struct ResultRecord {
    pub code: u8,
    pub motion: u8,
    pub count: u32,
}

/// What a store sets: bits 2 and 8-22 of primary, and secondary.
#[derive(Clone, Copy, Default)]
pub struct Outcome {
    pub retry: bool,
    pub mark: bool,
    pub result: ResultRecord,
    pub parity: bool,
    pub overflow: bool,
    pub underflow: bool,
    pub wdl: bool,
    pub rdl: bool,
    pub supplied: bool,
    pub counted: bool,
}

// A bit of a byte.
#[tactic(auto, unfolding(crate::specs::Words::bit_of, common::specs::Pick::pick))]
fn bit_of(set: bool, weight: u8) -> u8
    ensures value { result ≡ bit_of set weight }
    ensures upper_bound { result ≤ weight }
{
    if set { weight } else { 0 }
}

impl Outcome {
    /// Nothing set of primary, and this count.
    #[tactic(auto, unfolding(crate::specs::Words::no_outcome))]
    pub fn none(count: u32) -> Outcome
        ensures { result ≡ no_outcome count }
    {
        Outcome::default().with_count(count)
    }

    /// With this count.
    pub fn with_count(mut self, count: u32) -> Outcome
        ensures { result ≡ with_count self count }
    {
        self.result.count = count;
        self
    }

    /// With bit 16 set where a host byte was bad, and bit 18 where host bytes ran short.
    pub fn with_host_errors(self, bad: bool, short: bool) -> Outcome
        ensures { result ≡ with_host_errors self bad short }
    {
        Outcome {
            parity: self.parity | bad,
            underflow: self.underflow | short,
            ..self
        }
    }

    /// Whether any of bits 16-20 is set that counts: bit 19 where it does.
    #[tactic(auto, unfolding(crate::specs::Words::any_bit))]
    pub fn any_bit(self, wdl_counts: bool) -> bool
        ensures { result ≡ any_bit self wdl_counts }
    {
        self.parity | self.overflow | self.underflow | (self.wdl & wdl_counts) | self.rdl
    }

    // The first byte of primary: changed, enable, retry, track and drive.
    fn primary_first(self, changed: bool, enable: bool, selected: u8, drive: Drive) -> u8
        ensures { result ≡ primary_first changed enable self selected drive }
    {
        bit_of(changed, 128)
            + bit_of(enable, 64)
            + bit_of(self.retry, 32)
            + drive.track % 8 * 4
            + selected % 4
    }

    // The second: mark, motion and code.
    fn primary_second(self) -> u8
        ensures { result ≡ primary_second self }
    {
        bit_of(self.mark, 128) + self.result.motion % 4 * 32 + self.result.code % 32
    }

    // The third: bits 16-22 and the density.
    fn primary_third(self, drive: Drive) -> u8
        ensures { result ≡ primary_third self drive }
    {
        bit_of(self.parity, 128)
            + bit_of(self.overflow, 64)
            + bit_of(self.underflow, 32)
            + bit_of(self.wdl, 16)
            + bit_of(self.rdl, 8)
            + bit_of(self.supplied, 4)
            + bit_of(self.counted, 2)
            + drive.density % 2
    }

    /// Primary.
    #[tactic(auto, unfolding(crate::specs::Words::primary_of))]
    pub fn primary_of(self, changed: bool, enable: bool, selected: u8, drive: Drive) -> Word
        ensures { result ≡ primary_of changed enable self selected drive }
    {
        Word {
            b0: self.primary_first(changed, enable, selected, drive),
            b1: self.primary_second(),
            b2: self.primary_third(drive),
            b3: drive.report,
        }
    }
}

// An error's mark and kind as two digits, 0 where there is none.
#[tactic(auto, unfolding(crate::specs::Words::digits_of))]
fn digits_of(defect: Option<Defect>) -> u8
    ensures { result ≡ digits_of (told_defect defect) }
{
    match defect {
        Some(found) => found.mark % 16 * 16 + found.kind as u8,
        None => 0,
    }
}

// Its number.
fn number_of(defect: Option<Defect>) -> u8
    ensures { result ≡ (told_defect defect).number }
{
    defect.map_or(0, |found| found.number)
}

impl Word {
    /// Secondary.
    #[tactic(auto, unfolding(crate::specs::Words::secondary_word))]
    pub fn secondary_word(count: u32) -> Word
        ensures { result ≡ secondary_word count }
    {
        let [_, _, b2, b3] = count.to_be_bytes();
        Word {
            b2,
            b3,
            ..Word::default()
        }
    }

    /// Tertiary.
    #[tactic(auto, unfolding(crate::specs::Words::tertiary_of))]
    pub fn tertiary_of(odd: Option<Defect>, even: Option<Defect>) -> Word
        ensures { result ≡ tertiary_of (told_defect odd) (told_defect even) }
    {
        Word {
            b0: digits_of(odd),
            b1: number_of(odd),
            b2: digits_of(even),
            b3: number_of(even),
        }
    }

    /// Quintary.
    #[tactic(auto, unfolding(crate::specs::Words::quintary_of))]
    pub fn quintary_of(stop: Option<Defect>) -> Word
        ensures { result ≡ quintary_of (told_defect stop) }
    {
        Word {
            b2: digits_of(stop),
            b3: number_of(stop),
            ..Word::default()
        }
    }

    /// The four reports.
    #[tactic(auto, unfolding(crate::specs::Words::reports_word))]
    pub fn reports_word(drives: Drives) -> Word
        ensures { result ≡ reports_word drives }
    {
        Word {
            b0: drives.zero.report,
            b1: drives.one.report,
            b2: drives.two.report,
            b3: drives.three.report,
        }
    }
}
