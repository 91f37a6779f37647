//! Where a log begins.
ghost use Rattle.std.specs.Prelude.{◌≡◌};
ghost use Rattle.rds_audit.specs.Ages.{age_at};
ghost use Rattle.rds_audit.specs.AuditState.{start_if};
ghost use Rattle.rds_fields.specs.Stored.{is_set};

use rds_fields::Distance;

/// Where a log begins (this project's own rule).
#[derive(Clone, Copy)]
pub enum LogStart {
    /// The log begins with its station: it has each slot since the station's start.
    Complete,
    /// The station was on air before the log began, as in a recording. Slots that are lost count as before the log, so
    /// its first text may have started at any time. Tags before the first text segment are not judged, since their text
    /// may have come before the log; no receiver of the log shows them.
    Running,
}

impl LogStart {
    /// Returns how many slots old a log counts before its first slot.
    pub(crate) fn age(self, distance: Distance) -> u32
        ensures { result ≡ age_at self distance }
    {
        match self {
            LogStart::Complete => distance.get(),
            LogStart::Running => 2 * distance.get(),
        }
    }

    /// Stores the start as a bit.
    pub(crate) fn stored(self) -> u8
        ensures { start_if (is_set result) ≡ self }
    {
        match self {
            LogStart::Complete => 0,
            LogStart::Running => 1,
        }
    }
}
