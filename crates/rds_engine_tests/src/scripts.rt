//! Scripts without an end, readers that fail, and memory that is refused.

use crate::same::same;
use arrayvec::ArrayVec;
use rds_block::Place;
use rds_fields::{Dwell, Head, Late};
use rds_io::{LogFault, Told};
use rds_receiver::Window;
use rds_script::{encode, encode_within, simulate, simulate_within};
use rds_world::{Config, ReceiverKind};
use std::alloc::{AllocError, Global};
use std::cell::Cell;
use std::io::{self, ErrorKind, Read, Write};
use std::process::Abort;
use std::test::Fail;

/// A text that one receiver gets with a dwell of one slot, and the output of `sim`.
const SIMULATED: &[u8] = b"-,,1,G\ntext,HI,1,G\n-,,0,G\n";

const SIMULATED_OUTPUT: &[u8] =
    b"1 text ok\n1 sent C201 2140 4849 0D20\n1 r0 text \"HI\"\n2 r0 text none\n";

/// The same text set twice, and the log of it with a dwell of one slot.
const ENCODED: &[u8] = b"text,HI,1,\ntext,HI,1,\n";

const ENCODED_LOG: &[u8] = b"# 0 text silent 1
---- ---- ---- ----
# 1 text ok
C201 2140 4849 0D20
";

pub(crate) fn config(dwell: u16) -> Result<Config, Fail> {
    Ok(Config {
        head: Head {
            pi: 0xC201,
            tp: false,
            pty: Place::new(10).ok_or("pty")?,
        },
        dwell: Dwell::new(dwell).ok_or("dwell")?,
        late: Late::new(0).ok_or("late")?,
        kind: ReceiverKind::with_dwell(),
    })
}

/// As many records as the bound are too many, whether or not the script ends there.
#[test]
fn too_long(rt: HostRuntime) -> Result<(), Fail> {
    // Prover: variables of the types that `Config` holds, for the borrow checker (PROVER.md, "Workarounds").
    let _dwell = Dwell::longest();
    let _kind = ReceiverKind::with_dwell();
    let _window: Option<Window> = None;
    let wanted: [&[u8]; 4] = [
        b"",
        b"# 0 text silent 1\n---- ---- ---- ----\n",
        ENCODED_LOG,
        ENCODED_LOG,
    ];
    for (records, wanted) in wanted.iter().enumerate() {
        let mut output = Vec::new(rt.alloc());
        let done = encode_within(
            rt.alloc(),
            Told::new(ENCODED),
            &mut Told::new(&mut output),
            config(1)?,
            records as u64,
        );
        same(&rt, output.as_slice(), *wanted);
        same(
            &rt,
            done,
            if records == 3 {
                Ok(())
            } else {
                Err(LogFault::TooLong)
            },
        );
    }
    Ok(())
}

/// Gives a line again and again, or the bytes of a script, and fails at a read.
#[derive(Drop)]
struct Lasting<'a> {
    line: &'a [u8],
    left: &'a [u8],
    again: bool,
    fails_at: u64,
    error: ErrorKind,
    reads: &'a Cell<u64>,
}

impl Read for Lasting<'_> {
    fn read(&mut self, buf: &mut [u8]) -> io::Result<usize> {
        self.reads.set(self.reads.get().wrapping_add(1));
        if self.reads.get() == self.fails_at {
            return Err(io::Error::from(self.error));
        }
        if self.left.is_empty() && self.again {
            self.left = self.line;
        }
        let count = buf.len().min(self.left.len()).min(16);
        buf[..count].copy_from_slice(&self.left[..count]);
        self.left = &self.left[count..];
        Ok(count)
    }
}

#[test]
fn endless_script(rt: HostRuntime) -> Result<(), Fail> {
    // Prover: as in `too_long`.
    let _dwell = Dwell::longest();
    let _kind = ReceiverKind::with_dwell();
    let _window: Option<Window> = None;
    let reads = Cell::new(0);
    let mut output = Vec::new(rt.alloc());
    let done = simulate_within(
        rt.alloc(),
        Told::new(Lasting {
            line: b"-,,1,G\n",
            left: b"",
            again: true,
            fails_at: 0,
            error: ErrorKind::Other,
            reads: &reads,
        }),
        &mut Told::new(&mut output),
        config(1000)?,
        1000,
    );
    same(&rt, done, Err(LogFault::TooLong));
    same(&rt, output.as_slice(), b"".as_slice());
    Ok(())
}

/// Each read fails in turn: the output of the rows that were read is there, and nothing more is read.
#[test]
fn reader_fails(rt: HostRuntime) -> Result<(), Fail> {
    // Prover: as in `too_long`.
    let _dwell = Dwell::longest();
    let _kind = ReceiverKind::with_dwell();
    let _window: Option<Window> = None;
    for (error, fault) in [
        (ErrorKind::Other, LogFault::Read),
        (ErrorKind::OutOfMemory, LogFault::Read),
    ] {
        let mut runs = 0;
        for fails_at in 1..u64::MAX {
            runs = fails_at;
            let reads = Cell::new(0);
            let mut output = Vec::new(rt.alloc());
            let done = simulate(
                rt.alloc(),
                Told::new(Lasting {
                    line: b"",
                    left: SIMULATED,
                    again: false,
                    fails_at,
                    error,
                    reads: &reads,
                }),
                &mut Told::new(&mut output),
                config(1)?,
            );
            assert!(rt; SIMULATED_OUTPUT.starts_with(output.as_slice()));
            if done == Ok(()) {
                same(&rt, output.as_slice(), SIMULATED_OUTPUT);
                break;
            }
            same(&rt, done, Err(fault));
            same(&rt, reads.get(), fails_at);
        }
        assert!(rt; runs > 2);
    }
    Ok(())
}

/// Rows of a quiet slot with each kind of line end. Some lines are empty, and the last row has no line end.
const QUIET: [&[u8]; 4] = [
    b"-,,0,\n\n-,,0,\n-,,0,\n\n\n-,,0,",
    b"\r\n-,,0,\r\n-,,0,\r\n\r\n-,,0,\r\n-,,0,",
    b"-,,0,\r-,,0,\r\r-,,0,\r\n-,,0,",
    b"\xEF\xBB\xBF-,,0,\n-,,0,\r\n-,,0,\n-,,0,",
];

/// The output of a row of a quiet slot.
const QUIET_LINE: &[u8] = b"---- ---- ---- ----\n";

/// Gives a script in pieces. Counts the reads before which not all complete rows were answered.
#[derive(Drop)]
struct Pieces<'a> {
    script: &'a [u8],
    most: usize,
    given: usize,
    written: &'a Cell<u64>,
    early: &'a Cell<u64>,
}

impl Read for Pieces<'_> {
    fn read(&mut self, buf: &mut [u8]) -> io::Result<usize> {
        if self.written.get() < rows_in(&self.script[..self.given.min(self.script.len())]) {
            self.early.set(self.early.get().wrapping_add(1));
        }
        let left = self.script.get(self.given..).unwrap_or(b"");
        let count = buf.len().min(left.len()).min(self.most);
        buf[..count].copy_from_slice(&left[..count]);
        self.given = self.given.saturating_add(count);
        Ok(count)
    }
}

/// Returns how many lines end in these bytes that are not empty.
fn rows_in(bytes: &[u8]) -> u64 {
    let mut rows = 0u64;
    let mut in_row = false;
    for byte in bytes {
        let ends = *byte == b'\n' || *byte == b'\r';
        if ends && in_row {
            rows = rows.saturating_add(1);
        }
        in_row = !ends;
    }
    rows
}

/// Counts the lines that it takes.
#[derive(Drop)]
struct Counting<'a> {
    lines: &'a Cell<u64>,
}

impl Write for Counting<'_> {
    fn write(&mut self, buf: &[u8]) -> io::Result<usize> {
        let count = buf.len() / QUIET_LINE.len();
        self.lines
            .set(self.lines.get().saturating_add(count as u64));
        Ok(buf.len())
    }

    fn flush(&mut self) -> io::Result<()> {
        Ok(())
    }
}

/// All complete rows are answered before the next read, however the script is cut.
#[test]
fn answered_before_the_next_read(rt: HostRuntime) -> Result<(), Fail> {
    // Prover: as in `too_long`.
    let _dwell = Dwell::longest();
    let _kind = ReceiverKind::with_dwell();
    let _window: Option<Window> = None;
    for script in QUIET {
        for most in 1..40 {
            let written = Cell::new(0);
            let early = Cell::new(0);
            let reader = Told::new(Pieces {
                script,
                most,
                given: 0,
                written: &written,
                early: &early,
            });
            let mut writer = Told::new(Counting { lines: &written });
            let done = encode(rt.alloc(), reader, &mut writer, config(1)?);
            same(&rt, done, Ok(()));
            same(&rt, early.get(), 0);
            same(&rt, written.get(), 4);
        }
    }
    Ok(())
}

/// Takes up to 1,024 bytes, and asks for no memory.
#[derive(Drop)]
struct Page {
    bytes: ArrayVec<u8, 1024>,
}

impl Page {
    fn new() -> Page {
        Page {
            bytes: ArrayVec::new(),
        }
    }
}

impl Write for Page {
    fn write(&mut self, buf: &[u8]) -> io::Result<usize> {
        let count = buf.len().min(self.bytes.remaining_capacity());
        match self.bytes.try_extend_from_slice(&buf[..count]) {
            Ok(()) => Ok(count),
            Err(_) => Ok(0),
        }
    }

    fn flush(&mut self) -> io::Result<()> {
        Ok(())
    }
}

/// If memory runs out, some first part of the output was written; if not, all of it.
fn ends_whole_or_for_memory(
    rt: &impl Abort,
    done: Result<(), LogFault>,
    page: &Page,
    whole: &[u8],
) {
    let bytes = page.bytes.as_slice();
    match done {
        Ok(()) => same(rt, bytes, whole),
        Err(fault) => {
            same(rt, fault, LogFault::Memory);
            assert!(rt; whole.starts_with(bytes));
        }
    }
}

#[test]
fn refused_memory_in_a_simulation(rt: HostRuntime) -> Result<(), Fail> {
    // Prover: as in `too_long`.
    let _dwell = Dwell::longest();
    let _kind = ReceiverKind::with_dwell();
    let _window: Option<Window> = None;
    let mut page = Page::new();
    let reader = Told::new(SIMULATED);
    let done = simulate(rt.alloc(), reader, &mut Told::new(&mut page), config(1)?);
    ends_whole_or_for_memory(&rt, done, &page, SIMULATED_OUTPUT);
    Ok(())
}

#[test]
fn refused_memory_in_a_log(rt: HostRuntime) -> Result<(), Fail> {
    // Prover: as in `too_long`.
    let _dwell = Dwell::longest();
    let _kind = ReceiverKind::with_dwell();
    let _window: Option<Window> = None;
    let mut page = Page::new();
    let done = encode(
        rt.alloc(),
        Told::new(ENCODED),
        &mut Told::new(&mut page),
        config(1)?,
    );
    ends_whole_or_for_memory(&rt, done, &page, ENCODED_LOG);
    Ok(())
}
