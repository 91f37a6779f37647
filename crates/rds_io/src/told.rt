//! Readers and writers that count their failures, so that a program can distinguish a failure from an end.
ghost use Rattle.std.specs.Prelude.{◌≡◌, ℕ};
ghost use Rattle.rds_io.specs.Told.{failures_of, inner_of, next_count, reads_of, traffic, ReadsOne, WritesOne};
ghost use Rattle.rds_io.specs.Puts.{Puts};
ghost use Rattle.rds_io.specs.Told.{traffic};

use std::io::{self, Read, Write};
use thiserror::Error;

/// A reader that counts its reads and those that failed.
///
/// If a read returns `None`, the count of failures rose, or it was at 2^64 - 1. So a caller further up can find the
/// failure by the count alone. By the count of reads it can find how often the reader was asked.
pub trait TellingRead: Read {
    ghost failures: { Self → ℕ };

    ghost reads: { Self → ℕ };

    /// Asks the reader once for bytes, and returns how many it put at the front of `buf`.
    ///
    /// `Some(0)` is the end, unless `buf` is empty. `None` is a failure: no byte was taken from the reader, and the
    /// contents of `buf` have no meaning. An interrupted read is a failure too. If the count of failures is at
    /// 2^64 - 1, it cannot rise, so the reader is not asked and the call fails.
    fn read_one(&mut self, buf: &mut [u8]) -> Option<usize>
        ensures one { ReadsOne (traffic Self.remaining failures self.old self.new) result buf.new }
        ensures counts { reads self.new ≡ next_count (reads self.old) };
}

/// A writer that counts its writes that failed.
pub trait TellingWrite: Write {
    ghost failures: { Self → ℕ };

    /// Offers the bytes to the writer once, and returns how many of the first of them it took.
    ///
    /// `None` is a failure: no byte was taken. A writer that takes no byte of a buffer that has some has failed, since
    /// it would be asked for ever. As for [`TellingRead::read_one`], nothing is asked if the count of failures is at
    /// 2^64 - 1.
    fn write_one(&mut self, buf: &[u8]) -> Option<usize>
        ensures { WritesOne (traffic Self.contents failures self.old self.new) result buf.now };
}

/// A reader or a writer with the count of its failures, the system's reason for the last one, and the count of a
/// reader's counted reads.
///
/// Its bytes are those of the reader or writer inside. The plain `read`, `write` and `flush` pass through and count
/// nothing.
#[derive(Drop)]
pub struct Told<T> {
    inner: T,
    failures: u64,
    reads: u64,
    reason: Option<io::Error>,
}

impl<T> Told<T> {
    /// Wraps a reader or a writer, with all counts 0.
    pub fn new(inner: T) -> Told<T>
        ensures wraps { inner_of result ≡ inner }
        ensures unfailed { failures_of result ≡ 0 }
        ensures unread { reads_of result ≡ 0 }
    {
        Told {
            inner,
            failures: 0,
            reads: 0,
            reason: None,
        }
    }

    /// Returns the reader or the writer, borrowed.
    pub fn inner(&self) -> &T
        ensures { result.now ≡ inner_of self.now }
    {
        &self.inner
    }

    /// Returns how many calls of `read_one` and `write_one` failed.
    pub fn failures(&self) -> u64
        ensures { result ≡ failures_of self.now }
    {
        let Told { failures, .. } = self;
        *failures
    }

    /// Returns how many calls of `read_one` there were. The count stays at 2^64 - 1.
    pub fn reads(&self) -> u64
        ensures { result ≡ reads_of self.now }
    {
        let Told { reads, .. } = self;
        *reads
    }

    /// Returns the system's reason for the last failure. `None` if no call failed, or a writer took nothing.
    pub fn reason(&self) -> Option<&io::Error> {
        self.reason.as_ref()
    }
}

impl<T: Read> Read for Told<T> {
    ghost remaining = { λ told. T.remaining (inner_of told) };

    fn read(&mut self, buf: &mut [u8]) -> io::Result<usize> {
        self.inner.read(buf)
    }
}

impl<T: Write> Write for Told<T> {
    ghost contents = { λ told. T.contents (inner_of told) };

    fn write(&mut self, buf: &[u8]) -> io::Result<usize> {
        self.inner.write(buf)
    }

    fn flush(&mut self) -> io::Result<()> {
        self.inner.flush()
    }
}

impl<T: Read> TellingRead for Told<T> {
    ghost failures = { failures_of };

    ghost reads = { reads_of };

    fn read_one(&mut self, buf: &mut [u8]) -> Option<usize> {
        self.reads = self.reads.saturating_add(1);
        if self.failures == u64::MAX {
            return None;
        }
        match self.inner.read(buf) {
            Ok(count) => Some(count),
            Err(error) => {
                self.failures += 1;
                self.reason = Some(error);
                None
            }
        }
    }
}

impl<T: Write> TellingWrite for Told<T> {
    ghost failures = { failures_of };

    fn write_one(&mut self, buf: &[u8]) -> Option<usize> {
        if self.failures == u64::MAX {
            return None;
        }
        match self.inner.write(buf) {
            Ok(count) if count > 0 || buf.is_empty() => Some(count),
            taken => {
                self.failures += 1;
                self.reason = taken.err();
                None
            }
        }
    }
}

/// Counts the failures and reads of a borrowed reader in the reader itself.
impl<R: TellingRead> TellingRead for &mut R {
    ghost failures = { λ reader. R.failures reader.now };

    ghost reads = { λ reader. R.reads reader.now };

    fn read_one(&mut self, buf: &mut [u8]) -> Option<usize> {
        (**self).read_one(buf)
    }
}

/// The writer failed before it took all of the bytes.
#[derive(Clone, Copy, Debug, PartialEq, Eq, Error)]
#[error("the writer failed")]
pub struct WriteFault;

/// Writes all of the bytes, in as many writes as the writer needs.
///
/// # Errors
///
/// [`WriteFault`] at the first write that fails. The bytes that were taken before it are out.
pub fn put<W: TellingWrite>(bytes: &[u8], writer: &mut W) -> Result<(), WriteFault>
    ensures { Puts (traffic W.contents W.failures writer.old writer.new) bytes.now result }
{
    let mut sent = 0;
    while sent < bytes.len() {
        match writer.write_one(&bytes[sent..]) {
            Some(count) => sent += count,
            None => return Err(WriteFault),
        }
    }
    Ok(())
}
