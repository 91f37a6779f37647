//! Tests of a receiver that shows only what it heard twice, beside one that shows what it heard once.

use crate::same::same;
use rds_block::Group;
use rds_fields::Dwell;
use rds_receiver::{Receiver, Window};
use std::test::Fail;

/// The programme that the receivers are of.
const PI: u16 = 0xC201;

/// After a wrong group, a receiver that shows what it heard once shows a mix. The other one shows the text a round
/// later.
#[test]
fn wrong_group(rt: HostRuntime) -> Result<(), Fail> {
    let first = [PI, 0x2140, 0x4141, 0x4141];
    let last = [PI, 0x2141, 0x4343, 0x430D];
    let wrong = [PI, 0x2141, 0x4444, 0x440D];
    let right_text = Some(b"AAAACCC".as_slice());
    let mix = Some(b"AAAADDD".as_slice());
    let rows = [
        (first, None, None),
        (wrong, mix, None),
        (first, mix, None),
        (last, right_text, None),
        (first, right_text, None),
        (last, right_text, right_text),
    ];
    let mut once = Receiver::new(PI, Dwell::new(8).ok_or("dwell")?);
    let mut twice = Receiver::tuned(
        PI,
        Dwell::new(8).ok_or("dwell")?,
        Some(Window::new(5).ok_or("window")?),
    );
    let mut shown = None;
    for (words, by_once, by_twice) in rows {
        let group = Some(Group::from_blocks(words));
        once.slot(group);
        let may_differ = twice.slot(group);
        same(&rt, once.view().text, by_once);
        same(&rt, twice.view().text, by_twice);
        assert!(rt; may_differ || shown == by_twice);
        shown = by_twice;
    }
    Ok(())
}
