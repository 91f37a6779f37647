//! Tests that an audit keeps its fault, and that a copy goes on. A program may store an audit: it is plain numbers.

use crate::same::same;
use rds_audit::{Audit, AuditFault};
use rds_block::Group;
use rds_fields::{Dwell, Late};
use std::test::Fail;

fn text(flags: u16, bytes: u16) -> Option<Group> {
    Some(Group::from_blocks([0xC201, flags, bytes, 0x0D20]))
}

/// A copy finds the fault of the whole log, and keeps it, whatever is sent. The tests of the built program have worked
/// logs.
#[test]
fn goes_on_from_what_is_stored(rt: HostRuntime) -> Result<(), Fail> {
    let dwell = Dwell::new(8).ok_or("dwell")?;
    let mut audit = Audit::new(0xC201, dwell, Late::new(0).ok_or("late")?);
    same(&rt, audit.slot(text(0x2140, 0x4849)), Ok(()));
    let mut audit = audit;
    same(&rt, audit.slot(text(0x2150, 0x594F)), Ok(()));
    assert!(rt; audit.passed());
    let early = audit.slot(text(0x2140, 0x4849));
    same(&rt, early, Err(AuditFault::EarlyFlag));
    let mut audit = audit;
    for sent in [
        None,
        text(0x2140, 0x4849),
        text(0x2140, 0x594F),
        text(0x2150, 0x594F),
    ] {
        same(&rt, audit.slot(sent), Err(AuditFault::EarlyFlag));
        assert!(rt; !audit.passed());
    }
    Ok(())
}

/// Tags without a text come too early. The fault stays, even if the next slot has no group.
#[test]
fn early_tag_stays(rt: HostRuntime) -> Result<(), Fail> {
    let dwell = Dwell::new(8).ok_or("dwell")?;
    let mut audit = Audit::new(0xC201, dwell, Late::new(0).ok_or("late")?);
    let tags = Group::from_blocks([0xC201, 0xB148, 0x2002, 0x0000]);
    for sent in [Some(tags), None] {
        same(&rt, audit.slot(sent), Err(AuditFault::EarlyTag));
        assert!(rt; !audit.passed());
    }
    Ok(())
}

/// A text that follows with the same flag passes if the first has been gone for the dwell, but then the flag did not
/// turn. A fault ends both answers.
#[test]
fn flag_that_does_not_turn(rt: HostRuntime) -> Result<(), Fail> {
    let dwell = Dwell::new(2).ok_or("dwell")?;
    let mut audit = Audit::new(0xC201, dwell, Late::new(0).ok_or("late")?);
    for (sent, fault, texts, names) in [
        (text(0x2140, 0x4849), Ok(()), true, true),
        (text(0x2150, 0x594F), Ok(()), true, true),
        (None, Ok(()), true, true),
        (None, Ok(()), true, true),
        (text(0x2150, 0x4849), Ok(()), false, true),
        (text(0x2150, 0x594F), Err(AuditFault::Changed), false, false),
    ] {
        same(&rt, audit.slot(sent), fault);
        same(&rt, audit.passed(), fault.is_ok());
        same(&rt, audit.texts_turn_the_flag(), texts);
        same(&rt, audit.names_turn_the_flag(), names);
    }
    Ok(())
}
