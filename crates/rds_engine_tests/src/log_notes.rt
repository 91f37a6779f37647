//! Tests of the notes on a log. The expected notes are written by hand.

use rds_audit::{LogStart, TextForm};
use rds_fields::{Dwell, Late, TagGroup};
use rds_io::{LogFault, Told};
use rds_lines::{InputNotes, MOST_READS, NoNews, gather};
use rds_log::{Auditing, LogNotes, Stop, audit_with_notes, fault_name};
use rds_witness::witness_with_notes;
use std::test::Fail;

fn dwell(slots: u16) -> Result<Dwell, Fail> {
    Ok(Dwell::new(slots).ok_or("dwell")?)
}

/// The other calls note a bad line too, and the first 60 bytes of a long one.
#[test]
fn bad_lines_of_all_calls(rt: HostRuntime) -> Result<(), Fail> {
    let log = [b'x'; 100];
    let mut notes = InputNotes::new();
    let slots = gather(
        rt.alloc(),
        &mut Told::new(log.as_slice()),
        0xC201,
        TagGroup::usual(),
        MOST_READS,
        &mut notes,
        &mut NoNews,
    );
    assert_eq!(rt; slots.err(), Some(LogFault::BadLine(1)));
    let bad = notes.read.bad.ok_or("a bad line is noted")?;
    assert_eq!(rt; bad.start.as_slice(), &log[..60]);
    let mut notes = InputNotes::new();
    let mut output = Vec::new(rt.alloc());
    let found = witness_with_notes(
        rt.alloc(),
        &mut Told::new(log.as_slice()),
        &mut Told::new(&mut output),
        0xC201,
        TagGroup::usual(),
        dwell(8)?,
        &mut notes,
        &mut NoNews,
    );
    assert_eq!(rt; found, Err(LogFault::BadLine(1)));
    assert_eq!(rt; notes.read.bad.is_some(), true);
    Ok(())
}

/// The settings for a complete log and a dwell of 8 slots.
fn auditing(stop: Stop) -> Result<Auditing, Fail> {
    Ok(Auditing {
        pi: 0xC201,
        rtplus: TagGroup::usual(),
        dwell: dwell(8)?,
        late: Late::new(0).ok_or("late")?,
        start: LogStart::Complete,
        form: TextForm::Plain,
        stop,
    })
}

/// Each fault has a line, and is counted with its slot, its line and its time.
#[test]
fn each_fault_has_a_line(rt: HostRuntime) -> Result<(), Fail> {
    let log = b"# note
C201 2140 4849 0D20 @2024/06/01 07:58:12.08
C201 B148 2002 0000
C201 2150 594F 0D20
C201 2140 4849 0D20 12.5
";
    let mut output = Vec::new(rt.alloc());
    let mut notes = LogNotes::new();
    let passed = audit_with_notes(
        &mut Told::new(log.as_slice()),
        &mut Told::new(&mut output),
        auditing(Stop::LogEnd)?,
        MOST_READS,
        &mut notes,
        &mut NoNews,
    );
    assert_eq!(rt; passed, Ok(false));
    assert_eq!(rt;
        output.as_slice(),
        b"no 1 EarlyTag\nno 3 EarlyFlag\n".as_slice()
    );
    assert_eq!(rt; (notes.input.slots, notes.faults.slots), (4, 2));
    let flags = notes.faults.texts.counts[1].ok_or("no count")?;
    assert_eq!(rt; fault_name(flags.fault), b"EarlyFlag".as_slice());
    assert_eq!(rt; (flags.count, flags.first.slot, flags.last.line), (1, 3, 5));
    assert_eq!(rt; flags.last.time.bytes(), b"12.5".as_slice());
    assert!(rt; notes.faults.names.counts[0].is_none());
    Ok(())
}
