//! Tests of a receiver's view, and of the results of its calls. The tests of the built program have worked logs.

use crate::same::same;
use rds_block::{Blocks, Group};
use rds_fields::{Dwell, Which};
use rds_receiver::{Receiver, heard};
use std::test::Fail;

/// The programme that the receivers are of.
const PI: u16 = 0xC201;

/// A text, its title and a name.
#[test]
fn all_parts_shown(rt: HostRuntime) -> Result<(), Fail> {
    let mut receiver = Receiver::new(PI, Dwell::new(8).ok_or("dwell")?);
    for words in [
        [PI, 0x2140, 0x4849, 0x0D20],
        [PI, 0x3156, 0x0000, 0x4BD7],
        [PI, 0xB148, 0x2002, 0x0000],
        [PI, 0xA140, 0x4A41, 0x5A5A],
        [PI, 0xA141, 0x2046, 0x4D20],
    ] {
        receiver.slot(Some(Group::from_blocks(words)));
    }
    let (text, name) = (b"HI".as_slice(), b"JAZZ FM ".as_slice());
    let view = receiver.view();
    same(&rt, (view.text, view.name), (Some(text), Some(name)));
    same(
        &rt,
        (receiver.text(), receiver.name()),
        (Some(text), Some(name)),
    );
    same(
        &rt,
        (view.item, view.one, view.two),
        (Some((false, true)), Some((1, text)), None),
    );
    same(&rt, receiver.item(), Some((false, true)));
    same(&rt, receiver.tag(Which::One), Some((1, text)));
    Ok(())
}

/// A slot with nothing new, before the dwell ends, leaves the view unchanged.
#[test]
fn told_whether_the_view_stays(rt: HostRuntime) -> Result<(), Fail> {
    let hi = Some(Group::from_blocks([PI, 0x2140, 0x4849, 0x0D20]));
    let mut receiver = Receiver::new(PI, Dwell::new(4).ok_or("dwell")?);
    let rows = [
        (None, false),
        (hi, true),
        (hi, false),
        (None, false),
        (None, false),
        (None, false),
        (None, true),
        (None, false),
    ];
    let mut other = Receiver::new(PI, Dwell::new(4).ok_or("dwell")?);
    for (group, may_differ) in rows {
        same(&rt, receiver.slot(group), may_differ);
        same(&rt, other.slot_blocks(Blocks::of_slot(group)), may_differ);
        same(&rt, other.text(), receiver.text());
    }
    assert!(rt; heard(0xF201, hi).is_none());
    Ok(())
}

/// So does a slot with a part of a text, if no text was complete before.
#[test]
fn told_that_no_part_is_shown(rt: HostRuntime) -> Result<(), Fail> {
    let mut receiver = Receiver::new(PI, Dwell::new(4).ok_or("dwell")?);
    let rows = [
        ([PI, 0x2140, 0x4142, 0x4241], false),
        ([PI, 0x2150, 0x4142, 0x4241], false),
        ([PI, 0x2151, 0x0D20, 0x2020], true),
        ([PI, 0x2140, 0x4142, 0x4241], true),
    ];
    for (words, may_differ) in rows {
        same(
            &rt,
            receiver.slot(Some(Group::from_blocks(words))),
            may_differ,
        );
    }
    Ok(())
}
