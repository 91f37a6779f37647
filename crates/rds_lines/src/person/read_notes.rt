//! Notes on the reading of a log, for a person. No contract speaks of them.

use crate::log_line::{DECIDING, LogLine};
use crate::person::heard::Heard;
use crate::person::line_cause::LineCause;
use crate::person::log_times::{FIRST, LogTimes};
use crate::person::news::News;
use crate::source::Source;
use arrayvec::ArrayVec;

/// A malformed line (this project's own rule).
#[derive(Drop)]
pub struct BadStart {
    /// The first bytes of the line, at most 60.
    pub start: ArrayVec<u8, DECIDING>,
    /// Why it is malformed.
    pub cause: Option<LineCause>,
}

/// Notes on the reading of a log (this project's own rule).
#[derive(Drop)]
pub struct ReadNotes {
    /// Whether no line was read.
    pub is_empty: bool,
    /// The malformed line at which the run stopped.
    pub bad: Option<BadStart>,
    /// The times of the log.
    pub times: LogTimes,
}

impl ReadNotes {
    /// Returns the notes before the first line.
    pub fn new() -> ReadNotes {
        ReadNotes {
            is_empty: true,
            bad: None,
            times: LogTimes::new(),
        }
    }

    /// Takes the line that this source read last. `is_last` says that no more lines are wanted.
    #[inline(always)]
    pub(crate) fn line<N: News>(
        &mut self,
        said: LogLine,
        source: &Source,
        is_last: bool,
        news: &mut N,
    ) {
        let looks = match said {
            LogLine::Skip => true,
            LogLine::Slot(_) => is_last || !source.has_line() || source.lines() <= FIRST,
        };
        if looks {
            self.look(said, source, is_last, news);
        }
    }

    /// Takes the time of a line, and tells at the end of a read that a short or live log has too few lines.
    // Cold path.
    #[inline(never)]
    fn look<N: News>(&mut self, said: LogLine, source: &Source, is_last: bool, news: &mut N) {
        self.is_empty = false;
        match said {
            LogLine::Slot(_) => self.times.take(source.start(), source.lines()),
            LogLine::Skip => self.times.skip(source.start()),
        }
        if !is_last && !source.has_line() {
            self.times.tell(news);
        }
    }
}

/// Notes on a log as the input of an engine (this project's own rule).
#[derive(Drop)]
pub struct InputNotes {
    /// The number of slots that were read.
    pub slots: u64,
    /// The programmes of the groups.
    pub heard: Heard,
    /// Notes on the reading of the log.
    pub read: ReadNotes,
}

impl InputNotes {
    /// Returns the notes on a log before its first line.
    pub fn new() -> InputNotes {
        InputNotes {
            slots: 0,
            heard: Heard::new(),
            read: ReadNotes::new(),
        }
    }
}
