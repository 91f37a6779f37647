//! Tests of the last read: no read follows a fault or an answer, whose line comes in a read of its own.

use crate::same::same;
use crate::scripts::config;
use rds_fields::{Dwell, Late};
use rds_io::{LogFault, Told};
use rds_log::{audit, decode};
use rds_receiver::Window;
use rds_script::encode;
use rds_world::ReceiverKind;
use std::cell::Cell;
use std::io::{self, Read};
use std::test::Fail;

/// Gives at most one line a read, and tells how many bytes it has left.
#[derive(Drop)]
struct LineByLine<'a> {
    bytes: &'a [u8],
    left: &'a Cell<usize>,
}

impl Read for LineByLine<'_> {
    fn read(&mut self, buf: &mut [u8]) -> io::Result<usize> {
        let line = match self.bytes.iter().position(|byte| *byte == b'\n') {
            Some(at) => at + 1,
            None => self.bytes.len(),
        };
        let count = buf.len().min(line);
        buf[..count].copy_from_slice(&self.bytes[..count]);
        self.bytes = &self.bytes[count..];
        self.left.set(self.bytes.len());
        Ok(count)
    }
}

/// However many rows stand before the bad one, no row after it is read.
#[test]
fn no_read_after_a_bad_row(rt: HostRuntime) -> Result<(), Fail> {
    // Prover: variables of the types that `Config` holds, for the borrow checker (PROVER.md, "Workarounds").
    let _dwell = Dwell::longest();
    let _kind = ReceiverKind::with_dwell();
    let _window: Option<Window> = None;
    let after = b"-,,1,\n-,,1,\n".len();
    for (script, bad) in [
        (b"x\n-,,1,\n-,,1,\n".as_slice(), 1),
        (b"-,,1,\n-,,1,\nx\n-,,1,\n-,,1,\n".as_slice(), 3),
    ] {
        let left = Cell::new(0);
        let reader = Told::new(LineByLine {
            bytes: script,
            left: &left,
        });
        let mut output = Vec::new(rt.alloc());
        let mut writer = Told::new(&mut output);
        let done = encode(rt.alloc(), reader, &mut writer, config(4)?);
        same(&rt, (done, left.get()), (Err(LogFault::BadRow(bad)), after));
    }
    Ok(())
}

/// The same of a log's slot that does not pass, as tags that come early.
#[test]
fn no_read_after_the_end_of_an_audit(rt: HostRuntime) -> Result<(), Fail> {
    let left = Cell::new(0);
    let mut reader = Told::new(LineByLine {
        bytes: b"C201 2140 4849 0D20\nC201 B148 2002 0000\n\n\n",
        left: &left,
    });
    let mut output = Vec::new(rt.alloc());
    let mut writer = Told::new(&mut output);
    let late = Late::new(0).ok_or("late")?;
    let answer = audit(&mut reader, &mut writer, 0xC201, Dwell::longest(), late);
    same(&rt, (answer, left.get()), (Ok(false), 2));
    Ok(())
}

/// The same of a malformed line of a log. The output of the line before it is there.
#[test]
fn no_read_after_a_bad_line(rt: HostRuntime) -> Result<(), Fail> {
    let left = Cell::new(0);
    let mut reader = Told::new(LineByLine {
        bytes: b"C201 2140 4849 0D20\nx\n\n\n",
        left: &left,
    });
    let mut output = Vec::new(rt.alloc());
    let mut writer = Told::new(&mut output);
    let done = decode(&mut reader, &mut writer, 0xC201, Dwell::longest());
    same(&rt, (done, left.get()), (Err(LogFault::BadLine(2)), 2));
    same(&rt, output.as_slice(), b"0 text \"HI\"\n".as_slice());
    Ok(())
}
