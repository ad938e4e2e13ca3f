//! A wear log as it is held: its width, and its records.
ghost use Rattle.std.specs.Prelude.{◌≡◌, length};
ghost use Rattle.wearlines.specs.Line.{record_line, width_line};
ghost use Rattle.wearlines.specs.Log.{new_log, take_bad_line, take_width, take_record, take_line, told_log};
ghost use Rattle.wearlines.specs.Log.{view_log, view_into};

use crate::line::{read_record, read_width};
use arrayvec::ArrayVec;
use common::refusals::Refusal;
use status::words::ResultRecord;
use std::marker::Model;
use views::limits::RUN_LIMIT;
use views::view::{View, moving_view};

// One more than a run may have, so that a run above the limit can be told.
const HELD_LIMIT: usize = RUN_LIMIT + 1;

/// How many lines there were, the width, the records, and the number of the first line that cannot be read.
#[derive(Drop)]
pub struct Log {
    lines: u32,
    width: Option<usize>,
    records: ArrayVec<ResultRecord, HELD_LIMIT>,
    bad: Option<u32>,
}

impl Model for Log {
    ghost use Rattle.std.specs.Prelude.{◌≤◌, length};
    ghost use Rattle.views.specs.Held.{held_limit};
    ghost use Rattle.wearlines.specs.Log.{Held};

    ghost Value = { Held };

    ghost view = { λ l. record { lines = l.lines; width = l.width; records = l.records.items; bad = l.bad } };

    ghost invariant = { λ l. length l.records.items ≤ held_limit };
}

/// Why a log has no view.
#[derive(Clone, Copy, Debug, PartialEq, Eq)]
pub enum Fault {
    /// The line of this number cannot be read.
    BadLine(u32),
    Refused(Refusal),
}

impl Log {
    /// Before the first line.
    pub fn new() -> Log
        ensures { result ≡ new_log }
    {
        Log {
            lines: 0,
            width: None,
            records: ArrayVec::new(),
            bad: None,
        }
    }

    /// The next line cannot be read.
    #[tactic(auto, unfolding(crate::specs::Log::take_bad_line, crate::specs::Log::first_of))]
    pub fn take_bad_line(&mut self)
        ensures { self.new ≡ take_bad_line self.old }
    {
        self.lines = self.lines.saturating_add(1);
        self.bad = self.bad.or(Some(self.lines));
    }

    #[tactic(auto, unfolding(crate::specs::Log::take_width))]
    fn take_width(&mut self, line: &[u8])
        ensures { self.new ≡ take_width self.old (width_line line.now) }
    {
        match read_width(line) {
            None => self.take_bad_line(),
            Some(width) => {
                self.lines = self.lines.saturating_add(1);
                self.width = Some(width);
            }
        }
    }

    // A record that there is no room for is let go.
    #[tactic(auto, unfolding(crate::specs::Log::take_record, common::specs::Pick::pick))]
    fn take_record(&mut self, line: &[u8])
        ensures { self.new ≡ take_record self.old (record_line line.now) }
    {
        match read_record(line) {
            None => self.take_bad_line(),
            Some(record) => {
                self.lines = self.lines.saturating_add(1);
                let _ = self.records.try_push(record);
            }
        }
    }

    /// A line more: the first has the width, each other a record.
    #[tactic(auto, unfolding(crate::specs::Log::take_line, common::specs::Pick::pick))]
    pub fn take_line(&mut self, line: &[u8])
        ensures { self.new ≡ take_line self.old line.now }
    {
        if self.lines == 0 {
            self.take_width(line)
        } else {
            self.take_record(line)
        }
    }

    /// The log's view. Of a log with no line at all the first cannot be read.
    #[tactic(auto, unfolding(crate::specs::Log::view_log, crate::specs::Log::view_into, crate::specs::Log::shown, crate::specs::Log::shown_into))]
    pub fn view(&self, counts: &mut [u8]) -> Result<View, Fault>
        ensures answered { told_log result ≡ view_log self.now (length counts.old) }
        ensures written { counts.new ≡ view_into self.now counts.old }
    {
        match (self.bad, self.width) {
            (Some(line), _) => Err(Fault::BadLine(line)),
            (None, None) => Err(Fault::BadLine(1)),
            (None, Some(width)) => {
                moving_view(self.records.as_slice(), width, counts).map_err(Fault::Refused)
            }
        }
    }
}
