//! The times of a log, for a person. No contract speaks of them.
ghost use Rattle.std.specs.Prelude.{◌≤◌, length};

use crate::line_stamp::{comment_of, stamp_of};
use crate::person::news::News;
use rds_arrivals::{Break, LastMinute, slots_in};

/// The first lines of a log, in each of which a time is looked for. A log that ends in them is short, and one whose
/// first reads do is live.
pub(crate) const FIRST: u64 = 512;

/// A second in microseconds.
const SECOND: u64 = 1_000_000;

/// A second in slots, rounded up. Times may be whole seconds.
const SECOND_IN_SLOTS: u64 = 12;

/// By how much a log has too few lines (this project's own rule).
#[derive(Clone, Copy)]
pub struct Lack {
    /// The slots that the log, or its start, spans by its times.
    pub slots: u64,
    pub lines: u64,
    /// Whether these are the slots and lines of its start alone.
    pub is_of_start: bool,
}

/// The times of a log: of its first lines, and of the last line of each read (this project's own rule). At a break that
/// `slots` wrote, nobody knows the slots by the times, so only the times before it are compared.
#[derive(Clone, Copy)]
pub struct LogTimes {
    first: Option<u64>,
    newest: u64,
    /// The number of the line with the newest time.
    lines: u64,
    is_broken: bool,
    /// Whether a time has a fraction of a second.
    has_fraction: bool,
    /// Whether a person was told that the log has too few lines.
    is_told: bool,
}

impl LogTimes {
    /// Returns the times of no lines.
    pub(crate) fn new() -> LogTimes {
        LogTimes {
            first: None,
            newest: 0,
            lines: 0,
            is_broken: false,
            has_fraction: false,
            is_told: false,
        }
    }

    /// Returns whether a line had a time, and nobody was told that lines are missing.
    pub fn has_times(&self) -> bool {
        self.first.is_some() && !self.is_told
    }

    /// Returns whether no line that was looked at had a time.
    pub fn has_none(&self) -> bool {
        self.first.is_none()
    }

    /// Returns how many lost slots the times can hide, if they are in whole seconds.
    pub fn hides(&self) -> Option<u64> {
        if self.first.is_none() || self.has_fraction {
            return None;
        }
        Some(SECOND_IN_SLOTS)
    }

    /// Takes the line of a slot with this number and these first bytes.
    pub(crate) fn take(&mut self, start: &[u8], number: u64)
        requires { length start.now ≤ 60 }
    {
        let Some(stamp) = stamp_of(&mut LastMinute::new(), start) else {
            return;
        };
        if self.is_broken {
            return;
        }
        if self.first.is_none() {
            self.first = Some(stamp.time);
        }
        self.newest = stamp.time;
        self.has_fraction = self.has_fraction || stamp.time % SECOND != 0;
        self.lines = number;
    }

    /// Takes the first bytes of a line that is no slot.
    pub(crate) fn skip(&mut self, start: &[u8]) {
        self.is_broken = self.is_broken
            || start.starts_with(comment_of(Break::Back))
            || start.starts_with(comment_of(Break::Hour));
    }

    /// Tells at once that a log has too few lines for its times, if it is short or live.
    pub(crate) fn tell<N: News>(&mut self, news: &mut N) {
        if self.lines <= FIRST
            && let Some(lack) = self.lack_so_far()
        {
            self.is_told = news.lacks(lack);
        }
    }

    /// Returns by how much the log is too short for its times, up to its newest time.
    pub fn lack_so_far(&self) -> Option<Lack> {
        self.lack_of(self.lines, true, SECOND_IN_SLOTS)
    }

    /// Returns the same, also if so many slots are missing or one fewer, two at least: times are rounded, and a group
    /// may come a slot late.
    pub fn lack_of_some(&self, few: u64) -> Option<Lack> {
        self.lack_of(
            self.lines,
            true,
            few.saturating_sub(2).max(1).min(SECOND_IN_SLOTS),
        )
    }

    /// Returns by how much a log of so many slots is too short for its times. After a break its start decides.
    pub fn lack(&self, slots: u64) -> Option<Lack> {
        if self.is_broken {
            self.lack_so_far()
        } else {
            self.lack_of(slots, false, SECOND_IN_SLOTS)
        }
    }

    /// Returns the slots from the first time to the newest one, and these lines, if the slots are more by over so many.
    /// `None` if a person was told.
    fn lack_of(&self, lines: u64, is_of_start: bool, few: u64) -> Option<Lack> {
        let apart = self.newest.checked_sub(self.first?)?;
        let slots = slots_in(apart).saturating_add(1);
        if self.is_told || slots <= lines.saturating_add(few) {
            return None;
        }
        Some(Lack {
            slots,
            lines,
            is_of_start,
        })
    }
}
