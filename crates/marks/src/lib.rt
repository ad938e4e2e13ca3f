//! The marks of a GCR record: their test, the scan for errors, and what is told of an error.
#![tactic(auto)]

ghost use Rattle.std.specs.Prelude.{◌≡◌, ◌≤◌, length};
ghost use Rattle.marks.specs.Marks.{legal_mark, legal_marks, is_error, torn_marks, most_marks};
ghost use Rattle.marks.specs.Scan.{scan_marks, defect_at, findings_of, findings_torn, checks_alone};
ghost use Rattle.marks.specs.Scan.{told_defect, told_findings};

// The mark of a good blockette.
const GOOD: u8 = 15;

// The mark of a torn one, which no blockette comes with.
const TORN: u8 = 0;

// The most marks: a blockette's number is one byte, and two check blockettes follow the others.
const MOST_MARKS: usize = 258;

/// The places of the first odd error, of the first even one, and where the scan stopped; the number of marks where
/// there is none.
#[derive(Clone, Copy, Debug, PartialEq, Eq)]
pub struct Scan {
    pub odd: usize,
    pub even: usize,
    pub stop: usize,
}

/// What an error is of: a data blockette or a check blockette.
#[derive(Clone, Copy, Debug, PartialEq, Eq)]
pub enum Kind {
    Data = 1,
    Check = 2,
}

/// What is told of an error: its mark, its kind and its blockette's number.
#[derive(Clone, Copy, Debug, PartialEq, Eq)]
pub struct Defect {
    pub mark: u8,
    pub kind: Kind,
    pub number: u8,
}

/// What the scan finds: what is told of the first odd error, of the first even one and of the one where it stopped; and
/// the place where it stopped, the number of marks where it did not.
#[derive(Clone, Copy, Debug, PartialEq, Eq)]
pub struct Findings {
    pub odd: Option<Defect>,
    pub even: Option<Defect>,
    pub stop: Option<Defect>,
    pub place: usize,
}

// Whether a mark is one of 1-9 or 15.
#[tactic(auto, unfolding(crate::specs::Marks::legal_mark))]
fn legal_mark(mark: u8) -> bool
    ensures { result ≡ legal_mark mark }
{
    matches!(mark, 1..=9 | GOOD)
}

/// Whether a mark is that of a bad blockette.
#[tactic(auto, unfolding(crate::specs::Marks::is_error))]
pub fn is_error(mark: u8) -> bool
    ensures { result ≡ is_error mark }
{
    mark != GOOD
}

/// Whether every mark is. All are looked at, since what has no way out takes many in a step: `all`, which has one,
/// takes five times as long.
pub fn legal_marks(marks: &[u8]) -> bool
    ensures { result ≡ legal_marks marks.now }
{
    marks
        .iter()
        .fold(true, |legal, &mark| legal & legal_mark(mark))
}

/// Goes over the marks in tape order, to the second error of one parity or to the end.
#[tactic(auto, using(crate::proofs::ScanTurns::turns), unfolding(crate::specs::Scan::scan_marks))]
pub fn scan_marks(marks: &[u8]) -> Scan
    ensures { result ≡ scan_marks marks.now }
{
    let end = marks.len();
    let mut odd = end;
    let mut even = end;
    let mut at = 0;
    let stop = loop {
        let left = end - at;
        if left < 1 {
            break end;
        }
        if marks[at] != GOOD {
            if (left - 1) % 2 == 1 {
                if odd < end {
                    break at;
                }
                odd = at;
            } else {
                if even < end {
                    break at;
                }
                even = at;
            }
        }
        at += 1;
    };
    Scan { odd, even, stop }
}

// What is told of the blockette at a place: nothing behind the last.
#[tactic(auto, unfolding(crate::specs::Scan::defect_at, common::specs::Pick::pick, crate::specs::Scan::kind_of, crate::specs::Scan::number_of))]
fn defect_at(marks: &[u8], place: usize) -> Option<Defect>
    ensures { told_defect result ≡ defect_at marks.now place }
{
    let mark = *marks.get(place)?;
    let after = marks.len() - 1 - place;
    if after < 2 {
        return Some(Defect {
            mark,
            kind: Kind::Check,
            number: after as u8,
        });
    }
    let number = ((after - 2) % 256) as u8;
    Some(Defect {
        mark,
        kind: Kind::Data,
        number,
    })
}

/// Everything that is told of marks, from one scan.
#[tactic(auto, unfolding(crate::specs::Scan::findings_of))]
pub fn findings_of(marks: &[u8]) -> Findings
    ensures { told_findings result ≡ findings_of marks.now }
{
    let errors = scan_marks(marks);
    Findings {
        odd: defect_at(marks, errors.odd),
        even: defect_at(marks, errors.even),
        stop: defect_at(marks, errors.stop),
        place: errors.stop,
    }
}

// Marks where the first blockette is torn: it has the mark of a torn one, whichever mark came for it.
#[tactic(auto, using(crate::proofs::TornLaws::torn_first, crate::proofs::TornLaws::torn_none))]
fn put_torn_marks(marks: &[u8], space: &mut [u8])
    requires { length space.old ≡ length marks.now }
    ensures { space.new ≡ torn_marks marks.now }
{
    space.copy_from_slice(marks);
    if !marks.is_empty() {
        space[0] = TORN;
    }
}

/// Everything that is told of marks where the first blockette is torn.
#[tactic(auto, using(crate::proofs::TornLaws::torn_length))]
pub fn findings_torn(marks: &[u8]) -> Findings
    requires { length marks.now ≤ most_marks }
    ensures { told_findings result ≡ findings_torn marks.now }
{
    let mut seen = [GOOD; MOST_MARKS];
    let end = marks.len();
    put_torn_marks(marks, &mut seen[..end]);
    findings_of(&seen[..end])
}

impl Findings {
    /// Whether no error that the scan found is a data blockette's.
    #[tactic(auto, unfolding(crate::specs::Scan::checks_alone))]
    pub fn checks_alone(self) -> bool
        ensures { result ≡ checks_alone (told_findings self) }
    {
        let in_data = |defect: Defect| defect.kind == Kind::Data;
        !self.odd.is_some_and(in_data) & !self.even.is_some_and(in_data)
    }
}
