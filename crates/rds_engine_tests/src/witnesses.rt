//! A log is kept whole, and lost slots that make a mix are found in it.

use crate::same::same;
use rds_fields::{Dwell, TagGroup};
use rds_io::Told;
use rds_lines::{InputNotes, MOST_READS, NoNews, gather};
use rds_witness::{Losing, bursts_of, lose_with_notes, witness};
use std::test::Fail;

/// Three texts of two segments, one after the other. The third has the flag of the first.
const THREE_TEXTS: &[u8] = b"C201 2140 4142 4344
C201 2141 4546 0D20
C201 2150 4748 494A
C201 2151 4B4C 0D20
C201 2140 4D4E 4F50
C201 2141 5152 0D20
";

/// A receiver that loses the second text joins the first one to the third.
#[test]
fn burst_that_joins_two_texts(rt: HostRuntime) -> Result<(), Fail> {
    let mut output = Vec::new(rt.alloc());
    let found = witness(
        rt.alloc(),
        &mut Told::new(THREE_TEXTS),
        &mut Told::new(&mut output),
        0xC201,
        Dwell::new(8).ok_or("dwell")?,
    );
    same(&rt, found, Ok(true));
    same(
        &rt,
        output.as_slice(),
        b"lose 2-3: 4 text \"MNOPEF\"\n".as_slice(),
    );
    Ok(())
}

/// So does one whose lost slots are given.
#[test]
fn given_slots_lost(rt: HostRuntime) -> Result<(), Fail> {
    let mut output = Vec::new(rt.alloc());
    let bursts = bursts_of(rt.alloc(), b"2-3")?.ok_or("spans")?;
    let dwell = Dwell::new(8).ok_or("dwell")?;
    let losing = Losing {
        pi: 0xC201,
        rtplus: TagGroup::usual(),
        dwell,
        ahead: dwell,
        lost: bursts.as_slice(),
    };
    let found = lose_with_notes(
        rt.alloc(),
        &mut Told::new(THREE_TEXTS),
        &mut Told::new(&mut output),
        &losing,
        &mut InputNotes::new(),
        &mut NoNews,
    );
    same(&rt, found, Ok(true));
    same(&rt, output.as_slice(), b"4 text \"MNOPEF\"\n".as_slice());
    Ok(())
}

/// The slots of a log, with the missing ones.
#[test]
fn all_slots_are_kept(rt: HostRuntime) -> Result<(), Fail> {
    let log = b"C201 2140 4849 0D20\n---- ---- ---- ----\n".as_slice();
    let mut notes = InputNotes::new();
    match gather(
        rt.alloc(),
        &mut Told::new(log),
        0xC201,
        TagGroup::usual(),
        MOST_READS,
        &mut notes,
        &mut NoNews,
    ) {
        Ok(slots) => {
            let came = slots.iter().filter(|slot| slot.is_some()).count();
            same(&rt, (slots.len(), came), (2, 1));
        }
        Err(fault) => same(&rt, Err(fault), Ok(())),
    }
    Ok(())
}
