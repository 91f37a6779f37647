//! Groups and their four blocks.

use crate::same::same;
use rds_block::{Blocks, Group, Place};
use std::test::Fail;

/// The fields of a text segment of PI C201, TP 0, PTY 10, with flag 1 and address 0.
#[test]
fn fields_of_a_text_segment(rt: HostRuntime) -> Result<(), Fail> {
    let words = [0xC201, 0x2150, 0x594F, 0x0D20];
    let group = Group {
        pi: 0xC201,
        number: Place::new(2).ok_or("number")?,
        version: false,
        tp: false,
        pty: Place::new(10).ok_or("pty")?,
        low: Place::new(16).ok_or("low")?,
        c: 0x594F,
        d: 0x0D20,
    };
    same(&rt, Group::from_blocks(words), group);
    same(&rt, group.to_blocks(), words);
    same(
        &rt,
        Group::of_slot(Blocks::of_slot(Some(group))),
        Some(group),
    );
    same(&rt, Group::of_slot(Blocks::of_slot(None)), None);
    Ok(())
}
