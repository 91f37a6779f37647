//! A reader of bytes in memory, whose reads never fail.
ghost use Rattle.std.specs.Prelude.{◌≡◌, Some};

use rds_io::TellingRead;
use std::io::{self, Read};

/// The remaining bytes, and the number of counted reads.
#[derive(Drop)]
pub struct SliceReader<'a> {
    pub rest: &'a [u8],
    pub reads: u64,
}

impl<'a> SliceReader<'a> {
    /// Reads from the start of `bytes`.
    pub fn new(bytes: &'a [u8]) -> SliceReader<'a>
        ensures whole { result.rest.now ≡ bytes.now }
    {
        SliceReader {
            rest: bytes,
            reads: 0,
        }
    }
}

impl Read for SliceReader<'_> {
    ghost remaining = { λ given. Some given.rest.now };

    fn read(&mut self, buf: &mut [u8]) -> io::Result<usize> {
        self.rest.read(buf)
    }
}

impl TellingRead for SliceReader<'_> {
    ghost failures = { λ given. 0 };

    ghost reads = { λ given. given.reads };

    fn read_one(&mut self, buf: &mut [u8]) -> Option<usize> {
        self.reads = self.reads.saturating_add(1);
        self.rest.read(buf).ok()
    }
}
