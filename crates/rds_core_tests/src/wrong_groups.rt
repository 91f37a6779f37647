//! Worlds whose receivers show only what they heard twice, and wrong groups.

use crate::same::same;
use crate::worlds::{assert_text, config, refused_slot, slot_event, world_of};
use rds_block::Place;
use rds_fields::Message;
use rds_receiver::Window;
use rds_world::{Command, Config, ReceiverKind, Reception, StepRefused};
use std::test::Fail;

/// A dwell of four slots and a window of three: the spacing is six slots.
fn window_config() -> Result<Config, Fail> {
    let window = Window::new(3).ok_or("window")?;
    Ok(Config {
        kind: ReceiverKind {
            window: Some(window),
            is_flag_alone: false,
        },
        ..config()?
    })
}

/// A wrong group that spells the text `HO`.
fn wrong() -> Result<Reception, Fail> {
    Ok(Reception::Wrong(Message::Text {
        flag: false,
        address: Place::new(0).ok_or("address")?,
        bytes: *b"HO\r ",
    }))
}

/// With a window of three slots, a wrong group may come again after three slots and not after two, and at once after a
/// restart of the receiver. It is not shown.
#[test]
fn wrong_confirmed(rt: HostRuntime) -> Result<(), Fail> {
    let lost = Reception::Lost;
    let rows = [
        (wrong()?, None),
        (lost, None),
        (wrong()?, Some(StepRefused::WrongConfirmed(0))),
        (lost, None),
        (wrong()?, None),
        (Reception::Restart, None),
        (wrong()?, None),
        (wrong()?, Some(StepRefused::WrongConfirmed(0))),
    ];
    same(&rt, window_config()?.distance().get(), 6);
    let mut world = world_of(rt.alloc(), window_config()?, 1)?;
    for (reception, wanted) in rows {
        let event = slot_event(Command::Quiet, true, &[reception])?;
        same(&rt, refused_slot(&mut world, &event), wanted);
        assert_text(&rt, &world, 0, None)?;
    }
    Ok(())
}
