//! A reader that remembers whether one of its reads failed, and what it read. It stops at a line with too many commas.
ghost use Rattle.std.specs.Prelude.{◌≡◌, true};
ghost use Rattle.rds_io.specs.ReadFailed.{SomeReadFailed};

use crate::line_ends::ReadSoFar;
use rds_io::TellingRead;
use std::io::{self, ErrorKind, Read};

/// Wraps a reader, and sets a flag at the first failed read. It refuses to read on in a line with too many commas, as
/// if there were no memory for their places.
#[derive(Drop)]
pub(crate) struct FailureFlag<R: TellingRead> {
    inner: R,
    failed: bool,
    read: ReadSoFar,
    ghost told: { failed ≡ true → SomeReadFailed R.failures },
}

impl<R: TellingRead> FailureFlag<R> {
    ghost use Rattle.std.specs.Prelude.{false};
    ghost use Rattle.rds_script.specs.Inside.FailureFlag.{has_failed, flagged_reader};

    /// Wraps a reader. No read failed yet.
    pub(crate) fn new(inner: R) -> FailureFlag<R>
        ensures inner { flagged_reader result ≡ inner }
        ensures calm { has_failed result ≡ false }
    {
        FailureFlag {
            inner,
            failed: false,
            read: ReadSoFar::new(),
        }
    }

    /// Returns what was read so far.
    pub(crate) fn read_so_far(&self) -> &ReadSoFar {
        &self.read
    }

    /// Returns whether a read failed.
    pub(crate) fn failed(&self) -> bool
        ensures is { result ≡ has_failed self.now }
        ensures told { result ≡ true → SomeReadFailed R.failures }
    {
        self.failed
    }
}

impl<R: TellingRead> Read for FailureFlag<R> {
    ghost use Rattle.rds_script.specs.Inside.FailureFlag.{flagged_reader};

    ghost remaining = { λ asked. R.remaining (flagged_reader asked) };

    fn read(&mut self, buf: &mut [u8]) -> io::Result<usize> {
        if self.read.has_too_many_commas() {
            return Err(io::Error::from(ErrorKind::OutOfMemory));
        }
        match self.inner.read_one(buf) {
            Some(count) => {
                self.read.take(&buf[..count]);
                Ok(count)
            }
            None => {
                self.failed = true;
                Err(io::Error::from(ErrorKind::Other))
            }
        }
    }
}
