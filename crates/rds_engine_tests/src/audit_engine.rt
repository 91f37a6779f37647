//! `audit_within` over readers with an end and without.

use crate::logs::{Endless, LINE, ONE_BYTE};
use crate::same::same;
use rds_fields::{Dwell, Late};
use rds_io::{LogFault, Told};
use rds_log::audit_within;
use std::alloc::Global;
use std::cell::Cell;
use std::io::Read;
use std::test::Fail;

/// A text with its tags four slots after it.
const TAGGED: &[u8] = b"C201 2140 4849 0D20
---- ---- ---- ----
---- ---- ---- ----
---- ---- ---- ----
C201 B148 2002 0000
";

fn four_slots() -> Result<Dwell, Fail> {
    Ok(Dwell::new(4).ok_or("dwell")?)
}

fn on_time() -> Result<Late, Fail> {
    Ok(Late::new(0).ok_or("late")?)
}

/// Audits with at most `most` reads. Returns the answer and the number of written bytes.
fn audited_within(
    reader: impl Read + Drop,
    alloc: Global,
    most: u32,
) -> Result<(Result<bool, LogFault>, usize), Fail> {
    let mut output = Vec::new(alloc);
    let given = audit_within(
        &mut Told::new(reader),
        &mut Told::new(&mut output),
        0xC201,
        four_slots()?,
        on_time()?,
        u64::from(most),
    );
    Ok((given, output.len()))
}

/// A log that has no end within the bound is too long, and nothing is written, also where its one line has no end. A
/// log that ends in the last read is not too long.
#[test]
fn as_many_reads_as_may_be(rt: HostRuntime) -> Result<(), Fail> {
    let too_long = (Err(LogFault::TooLong), 0);
    for (bytes, most) in [(LINE, 0), (LINE, 1), (LINE, 3), (ONE_BYTE, 1000)] {
        let reads = Cell::new(0);
        let endless = Endless {
            bytes,
            reads: &reads,
        };
        let given = audited_within(endless, rt.alloc(), most)?;
        same(&rt, (given, reads.get()), (too_long, u64::from(most)));
    }
    same(&rt, audited_within(TAGGED, rt.alloc(), 1)?, too_long);
    same(&rt, audited_within(TAGGED, rt.alloc(), 2)?, (Ok(true), 6));
    Ok(())
}
