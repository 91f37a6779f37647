//! Tests of the list of all faults. The expected faults follow from its rules.

use crate::same::same;
use rds_audit::{Audit, AuditFault, FaultSet};
use rds_block::{Blocks, Group};
use rds_fields::{Dwell, Late};
use std::test::Fail;

fn text(flags: u16, bytes: u16) -> Option<Group> {
    Some(Group::from_blocks([0xC201, flags, bytes, 0x0D20]))
}

/// Tags whose third block is this one: its last bits are the length of the first tag.
fn tags(third: u16) -> Option<Group> {
    Some(Group::from_blocks([0xC201, 0xB148, third, 0x0000]))
}

fn audit_of(dwell: u16) -> Result<Audit, Fail> {
    let dwell = Dwell::new(dwell).ok_or("dwell")?;
    let late = Late::new(0).ok_or("late")?;
    Ok(Audit::new(0xC201, dwell, late))
}

/// A text has each fault once. A change begins a text that counts as having turned the flag.
#[test]
fn all_faults_of_a_text(rt: HostRuntime) -> Result<(), Fail> {
    let mut audit = audit_of(8)?;
    let none = FaultSet::none();
    let early_tag = FaultSet {
        early_tag: true,
        ..none
    };
    let early_flag = FaultSet {
        early_flag: true,
        ..none
    };
    let changed = FaultSet {
        changed: true,
        ..early_flag
    };
    for (sent, faults, texts) in [
        (text(0x2140, 0x4849), none, 1),
        (tags(0x2002), early_tag, 1),
        (tags(0x2002), none, 1),
        (text(0x2150, 0x594F), none, 2),
        (text(0x2140, 0x4849), early_flag, 3),
        (text(0x2140, 0x594F), changed, 4),
        (None, none, 4),
    ] {
        same(&rt, audit.all_faults(Blocks::of_slot(sent)), faults);
        same(&rt, audit.texts(), texts);
    }
    same(&rt, (audit.names(), audit.tags()), (0, 2));
    same(&rt, changed.first(), Some(AuditFault::Changed));
    assert!(rt; !audit.passed());
    Ok(())
}

/// A segment or a tag that fits no text is kept, and the audit goes on with it.
#[test]
fn what_fits_no_text(rt: HostRuntime) -> Result<(), Fail> {
    let mut audit = audit_of(2)?;
    same(
        &rt,
        audit.all_faults(Blocks::of_slot(text(0x2140, 0x4849))),
        FaultSet::none(),
    );
    assert!(rt; audit.passed());
    let tag_outside = FaultSet {
        tag_outside: true,
        ..FaultSet::none()
    };
    let not_one_text = FaultSet {
        not_one_text: true,
        ..FaultSet::none()
    };
    let past_the_return = [0xC201, 0x2141, 0x4142, 0x4344];
    for (blocks, faults) in [
        (None, FaultSet::none()),
        (tags(0x2004).map(|group| group.to_blocks()), tag_outside),
        (Some(past_the_return), not_one_text),
        (Some(past_the_return), FaultSet::none()),
    ] {
        let group = blocks.map(|words| Blocks::new(words));
        same(&rt, audit.all_faults(group), faults);
    }
    Ok(())
}
