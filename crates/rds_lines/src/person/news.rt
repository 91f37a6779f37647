//! What a person wants to know while a log is still open.

use crate::person::log_times::Lack;
use rds_arrivals::Break;

/// A break in the times of a log: nobody knows how many slots were lost before a group (this project's own rule).
#[derive(Clone, Copy)]
pub struct BreakPlace {
    /// Why nobody knows it.
    pub why: Break,
    /// The line of the group, counted from 1.
    pub line: u64,
}

/// Takes facts of a log where an engine meets them. No contract speaks of them.
pub trait News {
    /// The log so far has too few lines for its times. Returns whether a person was told: then the notes at the end do
    /// not say it again.
    fn lacks(&mut self, lack: Lack) -> bool;

    /// `slots` met this break, the first of its kind. It may come more than once. Breaks come in the order of the log.
    fn breaks(&mut self, at: BreakPlace);
}

/// Nobody wants to know.
#[derive(Drop)]
pub struct NoNews;

impl News for NoNews {
    fn lacks(&mut self, _lack: Lack) -> bool {
        false
    }

    fn breaks(&mut self, _at: BreakPlace) {}
}
