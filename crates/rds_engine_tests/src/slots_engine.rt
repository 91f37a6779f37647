//! Tests of `slots`: what it notes of a log.

use crate::same::same;
use rds_arrivals::Grain;
use rds_fields::Dwell;
use rds_io::{LogFault, Told};
use rds_lines::NoNews;
use rds_log::{Filling, Gap, SlotNotes, Times, fill_with_notes};
use std::test::Fail;

/// Groups of two programmes. The third has no time. The time of the last is before that of the fourth.
const LOG: &[u8] = b"C201 2140 4849 0D20 1.00\nC202 2140 4849 0D20 1.09\nC201 2140 4849 0D20\n\
    C201 2140 4849 0D20 1.26 x\n# note\nC201 2140 4849 0D20 0.5";

/// The output if the lines of C201 count: 2 slots are lost in 0.26 s.
const OF_ONE: &[u8] = b"C201 2140 4849 0D20 1.00\n---- ---- ---- ----\n---- ---- ---- ----\n\
    C201 2140 4849 0D20 1.26\n# time went back\n---- ---- ---- ----\n---- ---- ---- ----\n\
    C201 2140 4849 0D20 0.5\n";

/// The output if all lines count: 0 slots are lost in 0.09 s, and 1 in 0.17 s.
const OF_ALL: &[u8] = b"C201 2140 4849 0D20 1.00\nC202 2140 4849 0D20 1.09\n---- ---- ---- ----\n\
    C201 2140 4849 0D20 1.26\n# time went back\n---- ---- ---- ----\n---- ---- ---- ----\n\
    C201 2140 4849 0D20 0.5\n";

fn filling(pi: Option<u16>) -> Result<Filling, Fail> {
    Ok(Filling {
        pi,
        grain: Grain::new(20_000).ok_or("grain")?,
        dwell: Dwell::new(2).ok_or("dwell")?,
    })
}

/// Fills a log. Returns the answer, and the output.
fn filled(
    rt: &HostRuntime,
    log: &[u8],
    pi: Option<u16>,
    notes: &mut SlotNotes,
) -> Result<(Result<Times, LogFault>, Vec<u8>), Fail> {
    let mut written = Vec::new(rt.alloc());
    let done = fill_with_notes(
        &mut Told::new(log),
        &mut Told::new(&mut written),
        filling(pi)?,
        notes,
        &mut NoNews,
    );
    Ok((done, written))
}

/// Lines without a time, lines of other programmes and breaks are counted. Notes replace the notes of a run before.
#[test]
fn counted_lines(rt: HostRuntime) -> Result<(), Fail> {
    let mut notes = SlotNotes::new();
    for (pi, output, others) in [(Some(0xC201), OF_ONE, 1), (None, OF_ALL, 0)] {
        let (done, written) = filled(&rt, LOG, pi, &mut notes)?;
        same(&rt, done, Ok(Times::Broken));
        same(&rt, written.as_slice(), output);
        same(
            &rt,
            (
                notes.counts.untimed,
                notes.counts.others,
                notes.breaks.count,
            ),
            (1, others, 1),
        );
        let first = notes.breaks.first.ok_or("a break is noted")?;
        same(&rt, first.line, 6);
    }
    Ok(())
}

/// Groups with times in whole seconds are counted, and noted as coarse: 13 slots are counted, and 11 fit in a second
/// and the grain.
#[test]
fn whole_seconds(rt: HostRuntime) -> Result<(), Fail> {
    let log = b"C201 2140 4849 0D20 7\nC201 2140 4849 0D20 7\nC201 2140 4849 0D20 8\n".as_slice();
    let mut notes = SlotNotes::new();
    let (done, written) = filled(&rt, log, None, &mut notes)?;
    same(&rt, done, Ok(Times::Coarse));
    same(&rt, written.len(), 3 * 22 + 11 * 20);
    let stretch = notes.coarse.ok_or("coarse times are noted")?;
    same(
        &rt,
        (stretch.first, stretch.last, stretch.slots),
        (7_000_000, 8_000_000, 13),
    );
    same(&rt, stretch.room(filling(None)?.grain), 11);
    Ok(())
}

/// If all groups of a log are of other programmes, all were left out. A line with a lost block is no group.
#[test]
fn other_programmes_alone(rt: HostRuntime) -> Result<(), Fail> {
    let log = b"C202 2140 4849 0D20 1.0\nC202 2140 4849 0D20 2.0\n".as_slice();
    let mut notes = SlotNotes::new();
    let (done, written) = filled(&rt, log, Some(0xC201), &mut notes)?;
    same(&rt, done, Ok(Times::AllLeftOut));
    same(&rt, (written.len(), notes.counts.others), (0, 2));
    let lost = b"C202 ---- ---- ---- 1.0\n".as_slice();
    let (done, _) = filled(&rt, lost, Some(0xC201), &mut notes)?;
    same(&rt, (done, notes.counts.others), (Ok(Times::Fine), 1));
    Ok(())
}

/// The longest gap is noted with the line after it, and so is a group that does not fit a line without a group: by the
/// time in line 5, 43 slots were lost, and by the time in line 6 none. The lost slots stay.
#[test]
fn gaps(rt: HostRuntime) -> Result<(), Fail> {
    let log =
        b"C201 2140 4849 0D20 0.00\nC201 2140 4849 0D20 1.14\n# note\nC201 2140 4849 0D20 1.67\n\
        ---- ---- ---- ---- 5.5\nC201 2140 4849 0D20 1.76\n"
            .as_slice();
    let mut notes = SlotNotes::new();
    let (done, _) = filled(&rt, log, None, &mut notes)?;
    same(&rt, done, Ok(Times::Coarse));
    same(&rt, notes.counts.gap, Gap { lost: 43, line: 6 });
    same(&rt, notes.counts.misfit, Some(6));
    let (done, _) = filled(&rt, &log[..82], None, &mut notes)?;
    same(&rt, done, Ok(Times::Fine));
    same(&rt, notes.counts.gap, Gap { lost: 12, line: 2 });
    same(&rt, notes.counts.misfit, None);
    Ok(())
}

/// A log whose groups have no time is not understood, and its output is empty. A slot without a group is not counted.
#[test]
fn no_times(rt: HostRuntime) -> Result<(), Fail> {
    let log = b"---- ---- ---- ----\nC201 2140 4849 0D20 07:58\n".as_slice();
    let mut notes = SlotNotes::new();
    let (done, written) = filled(&rt, log, None, &mut notes)?;
    same(&rt, done, Ok(Times::AllLeftOut));
    same(&rt, (written.len(), notes.counts.untimed), (0, 1));
    Ok(())
}
