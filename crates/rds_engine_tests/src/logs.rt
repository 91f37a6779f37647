//! Logs without an end.

use crate::same::same;
use rds_fields::Dwell;
use rds_io::{LogFault, Told};
use rds_log::decode_within;
use std::cell::Cell;
use std::io::{self, Read};
use std::test::Fail;

fn dwell() -> Result<Dwell, Fail> {
    Ok(Dwell::new(128).ok_or("dwell")?)
}

/// A reader that returns the same bytes for ever, and counts the reads.
#[derive(Drop)]
pub(crate) struct Endless<'a> {
    pub(crate) bytes: &'a [u8],
    pub(crate) reads: &'a Cell<u64>,
}

/// A line of a log.
pub(crate) const LINE: &[u8] = b"C201 2140 4849 0D20\n";

/// A reader of a line that never ends: each read returns this byte.
pub(crate) const ONE_BYTE: &[u8] = b"C";

impl Read for Endless<'_> {
    fn read(&mut self, buf: &mut [u8]) -> io::Result<usize> {
        self.reads.set(self.reads.get().wrapping_add(1));
        let count = buf.len().min(self.bytes.len());
        buf[..count].copy_from_slice(&self.bytes[..count]);
        Ok(count)
    }
}

/// The engine makes exactly the allowed number of reads. A line that never ends writes nothing.
#[test]
fn too_long(rt: HostRuntime) -> Result<(), Fail> {
    let shown = b"0 text \"HI\"\n".as_slice();
    let nothing = b"".as_slice();
    for (bytes, most, wanted) in [
        (LINE, 0, nothing),
        (LINE, 1, shown),
        (LINE, 3, shown),
        (ONE_BYTE, 1000, nothing),
    ] {
        let reads = Cell::new(0);
        let mut output = Vec::new(rt.alloc());
        let done = decode_within(
            &mut Told::new(Endless {
                bytes,
                reads: &reads,
            }),
            &mut Told::new(&mut output),
            0xC201,
            dwell()?,
            most,
        );
        same(&rt, done, Err(LogFault::TooLong));
        same(&rt, reads.get(), most);
        same(&rt, output.as_slice(), wanted);
    }
    Ok(())
}
