//! Why a command stopped before the end of its log or script.
ghost use Rattle.std.specs.Prelude.{◌≡◌};
ghost use Rattle.rds_io.specs.declared.fault.LogFault.TheVariants as faults;

use crate::WriteFault;
use thiserror::Error;

/// The line with this number, counted from 1 over all lines, is malformed.
#[derive(Clone, Copy)]
pub struct BadLine {
    pub number: u64,
}

/// Why a command stopped before the end of its log or script (this project's own rule).
#[derive(Clone, Copy, Debug, PartialEq, Eq, Error)]
pub enum LogFault {
    /// The line of the log with this number, counted from 1, is malformed.
    #[error("line {0} is no log line")]
    BadLine(u64),
    /// The record of the script with this number, counted from 1, is not a row.
    #[error("record {0} is no row")]
    BadRow(u64),
    /// Reading failed.
    #[error("the reader failed")]
    Read,
    /// Writing failed.
    #[error("the writer failed")]
    Write,
    /// The log did not end within the bound on reads, or the script has as many records as the bound.
    #[error("the input has no end within the bound")]
    TooLong,
    /// Out of memory, for a record of a script or for its world.
    #[error("out of memory")]
    Memory,
}

impl From<BadLine> for LogFault {
    ghost from_gives = { λ bad fault. fault ≡ faults.BadLine bad.number };

    fn from(bad: BadLine) -> LogFault {
        LogFault::BadLine(bad.number)
    }
}

impl From<WriteFault> for LogFault {
    ghost from_gives = { λ _ fault. fault ≡ faults.Write };

    fn from(_: WriteFault) -> LogFault {
        LogFault::Write
    }
}
