//! A station and its receivers: what each slot answers and sends, and what is shown at its end. The worked rows that
//! are scripts are cases of the whole program.

use crate::same::same;
use arrayvec::ArrayVec;
use rds_assembly::{Name, Text};
use rds_block::Place;
use rds_fields::{Dwell, Head, Late};
use rds_world::{
    Answer, Command, Config, PlayRefused, ReceiverKind, Reception, Reply, SlotEvent, StepRefused,
    World, WorldRefused, play,
};
use std::alloc::Global;
use std::process::Abort;
use std::test::Fail;

const GOT: Reception = Reception::Got(0);

const LOST: Reception = Reception::Lost;

/// So many free slots of a world whose receivers get each group: what happens in each, its reply and what it sends, and
/// the text that all show at its end.
#[derive(Clone, Copy)]
pub(crate) struct Row {
    slots: u32,
    command: Command,
    reply: Reply,
    sent: Option<[u16; 4]>,
    text: Option<Text>,
}

/// So many slots with no command; nothing is sent, and nothing is shown.
pub(crate) fn quiet(slots: u32) -> Row {
    Row {
        slots,
        command: Command::Quiet,
        reply: Reply::Quiet,
        sent: None,
        text: None,
    }
}

/// A slot with a command and its reply.
pub(crate) fn told(command: Command, reply: Reply) -> Row {
    Row {
        command,
        reply,
        ..quiet(1)
    }
}

impl Row {
    pub(crate) fn sends(self, words: [u16; 4]) -> Row {
        Row {
            sent: Some(words),
            ..self
        }
    }

    pub(crate) fn shows(self, text: Text) -> Row {
        Row {
            text: Some(text),
            ..self
        }
    }
}

/// Returns why the slots are not played. `None` if they are.
pub(crate) fn not_played(
    alloc: Global,
    config: Config,
    receivers: usize,
    slots: &[SlotEvent],
) -> Option<PlayRefused> {
    play(alloc, config, receivers, slots).err()
}

/// Returns why there is no world of this many receivers. `None` if there is one.
fn not_made(alloc: Global, config: Config, receivers: usize) -> Option<WorldRefused> {
    World::new(alloc, config, receivers).err()
}

/// Plays a slot in the world, and promises nothing either.
fn play_slot(world: &mut World, slot: &SlotEvent) -> Result<Answer, StepRefused> {
    world.step(slot)
}

/// Plays a slot in the world, and returns why it is refused. `None` if it is not.
pub(crate) fn refused_slot(world: &mut World, slot: &SlotEvent) -> Option<StepRefused> {
    match play_slot(world, slot) {
        Ok(answer) => {
            // Prover: a variable of the type in `Answer`, for the borrow checker (PROVER.md, "Workarounds").
            let _sent = answer.sent;
            None
        }
        Err(why) => Some(why),
    }
}

/// A new world of so many receivers, whose dwell is four slots, and which are on time.
fn new_world(alloc: Global, receivers: usize) -> Result<World, Fail> {
    world_of(alloc, config()?, receivers)
}

pub(crate) fn world_of(alloc: Global, config: Config, receivers: usize) -> Result<World, Fail> {
    Ok(World::new(alloc, config, receivers).ok().ok_or("world")?)
}

/// Plays the rows on a new world of this many receivers, and returns the world.
fn played(rt: &impl Abort, alloc: Global, receivers: usize, rows: &[Row]) -> Result<World, Fail> {
    let mut world = new_world(alloc, receivers)?;
    step_rows(rt, &mut world, receivers, rows)?;
    Ok(world)
}

/// Plays the rows on this world of up to two receivers.
pub(crate) fn step_rows(
    rt: &impl Abort,
    world: &mut World,
    receivers: usize,
    rows: &[Row],
) -> Result<(), Fail> {
    let all_get = [GOT; 2];
    let receptions = all_get.get(..receivers).ok_or("receivers")?;
    for (place, row) in rows.iter().enumerate() {
        for slot in 0..row.slots {
            let event = slot_event(row.command, true, receptions)?;
            let answer = play_slot(world, &event).ok().ok_or("receptions")?;
            same(rt, (place, slot, answer.reply), (place, slot, row.reply));
            let sent = answer.sent.map(|group| group.to_blocks());
            same(rt, (place, slot, sent), (place, slot, row.sent));
            let text = row.text.as_ref().map(|text| text.bytes());
            for receiver in 0..receivers {
                assert_text(rt, world, receiver, text)?;
            }
        }
    }
    Ok(())
}

/// Compares the text of a receiver with this one. The clauses of a world then burden no test that calls this.
pub(crate) fn assert_text(
    rt: &impl Abort,
    world: &World,
    receiver: usize,
    wanted: Option<&[u8]>,
) -> Result<(), Fail> {
    let shown = world.receiver(receiver).ok_or("receiver")?.text();
    same(rt, (receiver, shown), (receiver, wanted));
    Ok(())
}

/// Compares the text and the name on air with these.
fn assert_on_air(rt: &impl Abort, world: &World, wanted: (Option<&[u8]>, Option<&[u8]>)) {
    same(rt, world.on_air(), wanted);
}

pub(crate) fn slot_event(
    command: Command,
    free: bool,
    each: &[Reception],
) -> Result<SlotEvent, Fail> {
    let mut receptions = ArrayVec::new();
    for reception in each {
        receptions.try_push(*reception).ok().ok_or("receptions")?;
    }
    Ok(SlotEvent {
        command,
        free,
        receptions,
    })
}

/// PI C201, TP 0, PTY 10, a dwell of four slots, and receivers that are on time.
pub(crate) fn config() -> Result<Config, Fail> {
    let head = Head {
        pi: 0xC201,
        tp: false,
        pty: Place::new(10).ok_or("pty")?,
    };
    Ok(Config {
        head,
        dwell: Dwell::new(4).ok_or("dwell")?,
        late: Late::new(0).ok_or("late")?,
        kind: ReceiverKind::with_dwell(),
    })
}

/// The same with groups that come up to so many slots late.
fn late_config(slots: u16) -> Result<Config, Fail> {
    Ok(Config {
        late: Late::new(slots).ok_or("late")?,
        ..config()?
    })
}

fn set_text(bytes: &[u8]) -> Result<Command, Fail> {
    Ok(Command::SetText(text(bytes)?))
}

fn text(bytes: &[u8]) -> Result<Text, Fail> {
    Ok(Text::new(bytes)?)
}

/// The text `HI` with flag 0.
const HI: [u16; 4] = [0xC201, 0x2140, 0x4849, 0x0D20];

/// A restart takes the text off the air; the receiver still shows it.
#[test]
fn nothing_on_air_after_a_restart(rt: HostRuntime) -> Result<(), Fail> {
    let hi = text(b"HI")?;
    let jazz = Name::new(b"JAZZ FM")?;
    let rows = [
        quiet(4),
        told(Command::SetText(hi), Reply::Done).sends(HI).shows(hi),
        told(Command::SetName(jazz), Reply::Done)
            .sends([0xC201, 0xA140, 0x4A41, 0x5A5A])
            .shows(hi),
    ];
    let mut world = played(&rt, rt.alloc(), 1, &rows)?;
    let on_air = (Some(b"HI".as_slice()), Some(b"JAZZ FM ".as_slice()));
    assert_on_air(&rt, &world, on_air);
    let restart = told(Command::Restart, Reply::Restarted).shows(hi);
    step_rows(&rt, &mut world, 1, &[restart])?;
    assert_on_air(&rt, &world, (None, None));
    Ok(())
}

/// A world takes memory, and says so if it is refused: `test_memory` runs this test with each request refused in turn.
#[test]
fn refused_memory(rt: HostRuntime) -> Result<(), Fail> {
    let events = [slot_event(Command::Quiet, true, &[LOST])?];
    let made = not_made(rt.alloc(), late_config(2)?, 1);
    assert!(rt; made.is_none_or(|why| why == WorldRefused::Memory));
    let config = late_config(2)?;
    // Prover: variables of the types that `Config` holds, for the borrow checker (PROVER.md, "Workarounds").
    let _late = config.late;
    let _kind = config.kind;
    let played = not_played(rt.alloc(), config, 1, &events);
    assert!(rt; played.is_none_or(|why| why == PlayRefused::Memory));
    Ok(())
}

/// A receiver changes only if a text becomes complete or is dropped; one that is not there counts as changed. The second
/// receiver loses each slot.
#[test]
fn changed(rt: HostRuntime) -> Result<(), Fail> {
    let mut world = new_world(rt.alloc(), 2)?;
    assert!(rt; world.any_changed());
    for slot in 0..9 {
        let command = if slot == 4 {
            set_text(b"HI")?
        } else {
            Command::Quiet
        };
        let free = slot < 5;
        assert!(rt; play_slot(&mut world, &slot_event(command, free, &[GOT, LOST])?).is_ok());
        let changes = slot == 4 || slot == 8;
        same(&rt, (slot, world.changed(0)), (slot, changes));
        same(&rt, (slot, world.any_changed()), (slot, changes));
        assert!(rt; !world.changed(1) && world.changed(2));
    }
    Ok(())
}

/// A ninth receiver, and a slot with one reception in a world of two, which leaves the world as it was. (The refusals
/// are compared here: by `same` the kit's borrow checker has no proof of this test.)
#[test]
fn refused_words(rt: HostRuntime) -> Result<(), Fail> {
    let nine = not_made(rt.alloc(), config()?, 9);
    assert_eq!(rt; nine, Some(WorldRefused::TooManyReceivers));
    let hi = text(b"HI")?;
    let rows = [
        quiet(4),
        told(Command::SetText(hi), Reply::Done).sends(HI).shows(hi),
    ];
    let mut world = played(&rt, rt.alloc(), 2, &rows)?;
    let short = slot_event(Command::Restart, true, &[LOST])?;
    let refused: Result<Answer, StepRefused> = world.step(&short);
    assert_eq!(rt; refused, Err(StepRefused::ReceiverCount));
    assert_on_air(&rt, &world, (Some(b"HI".as_slice()), None));
    assert!(rt; world.receiver(2).is_none());
    Ok(())
}
