//! Each call of an encoder by itself. Worked scripts are cases of the built program.

use crate::same::same;
use rds_assembly::{Name, Text};
use rds_block::Place;
use rds_encoder::{Encoder, Refusal, Wait};
use rds_fields::{Dwell, Head, Late, Tag, TagPair, Which};
use std::process::Abort;
use std::test::Fail;

/// A set of a text, a name or tags with its reply, or a free slot with its group.
#[derive(Clone, Copy)]
enum Row {
    Text([u8; 2], Result<(), Refusal>),
    Name([u8; 7], Result<(), Refusal>),
    Tags(TagPair, Result<(), Refusal>),
    Free(Option<[u16; 4]>),
}

/// Sets and ticks, row by row.
fn play(rt: &impl Abort, encoder: &mut Encoder, rows: &[Row]) -> Result<(), Fail> {
    for (place, row) in rows.iter().enumerate() {
        match *row {
            Row::Text(bytes, reply) => {
                same(rt, (place, encoder.set_text(text(bytes)?)), (place, reply));
            }
            Row::Name(bytes, reply) => {
                same(rt, (place, encoder.set_name(name(bytes)?)), (place, reply));
            }
            Row::Tags(pair, reply) => {
                same(rt, (place, encoder.set_tags(pair)), (place, reply));
            }
            Row::Free(wanted) => {
                let sent = encoder.tick(true).map(|group| group.to_blocks());
                same(rt, (place, sent), (place, wanted));
            }
        }
    }
    Ok(())
}

/// An encoder of PI C201, TP 0, PTY 10 at a restart, of receivers whose groups come at most so many slots late.
fn restarted(dwell: u16, late: u16) -> Result<Encoder, Fail> {
    let head = Head {
        pi: 0xC201,
        tp: false,
        pty: Place::new(10).ok_or("pty")?,
    };
    let dwell = Dwell::new(dwell).ok_or("dwell")?;
    Ok(Encoder::new(head, dwell, Late::new(late).ok_or("late")?))
}

fn text(bytes: [u8; 2]) -> Result<Text, Fail> {
    Ok(Text::new(&bytes)?)
}

fn name(bytes: [u8; 7]) -> Result<Name, Fail> {
    Ok(Name::new(&bytes)?)
}

/// A pair of a running item with toggle 0; its tags by class, start and length marker.
fn pair(one: (u8, u8, u8), two: (u8, u8, u8)) -> Result<TagPair, Fail> {
    let one = Tag::new(one.0, one.1, one.2)?;
    let two = Tag::new(two.0, two.1, two.2)?;
    Ok(TagPair::new(false, true, one, two)?)
}

fn wait(silent: u32, text: u32, name: u32) -> Wait {
    Wait { silent, text, name }
}

const DUMMY: (u8, u8, u8) = (0, 0, 0);

/// The text `HI` with flag 0 and with flag 1.
const HI: [u16; 4] = [0xC201, 0x2140, 0x4849, 0x0D20];

const HI_AGAIN: [u16; 4] = [0xC201, 0x2150, 0x4849, 0x0D20];

/// The two segments of the name `JAZZ FM ` with flag 0.
const JAZZ: [u16; 4] = [0xC201, 0xA140, 0x4A41, 0x5A5A];

const FM: [u16; 4] = [0xC201, 0xA141, 0x2046, 0x4D20];

const ANNOUNCEMENT: [u16; 4] = [0xC201, 0x3156, 0x0000, 0x4BD7];

/// The title `HI`.
const TITLE: [u16; 4] = [0xC201, 0xB148, 0x2002, 0x0000];

/// A whole round at a dwell of 1, every slot free: texts, the name, the announcement, the tags.
#[test]
fn whole_round(rt: HostRuntime) -> Result<(), Fail> {
    let mut encoder = restarted(1, 0)?;
    let title = pair((1, 0, 1), DUMMY)?;
    let long = pair((1, 0, 2), DUMMY)?;

    same(&rt, encoder.wait(), wait(1, 0, 0));
    let silent = Err(Refusal::Silent(1));
    play(
        &rt,
        &mut encoder,
        &[
            Row::Text(*b"HI", silent),
            Row::Tags(title, silent),
            Row::Name(*b"JAZZ FM", silent),
            Row::Free(None),
            Row::Tags(title, Err(Refusal::NoText)),
            Row::Text(*b"HI", Ok(())),
            Row::Name(*b"JAZZ FM", Ok(())),
            Row::Free(Some(HI)),
        ],
    )?;

    same(&rt, encoder.text(), Some(b"HI".as_slice()));
    same(&rt, encoder.name(), Some(b"JAZZ FM ".as_slice()));
    same(&rt, encoder.wait(), wait(0, 1, 1));
    let held_back = Err(Refusal::Held(1));
    let out = Err(Refusal::OutOfText(Which::One));
    play(
        &rt,
        &mut encoder,
        &[
            Row::Text(*b"HI", held_back),
            Row::Name(*b"JAZZ FM", held_back),
            Row::Free(Some(JAZZ)),
            Row::Text(*b"HI", Ok(())),
            Row::Tags(title, Ok(())),
            Row::Tags(long, out),
            Row::Free(Some(HI_AGAIN)),
            Row::Free(Some(FM)),
            Row::Free(Some(HI_AGAIN)),
            Row::Free(Some(ANNOUNCEMENT)),
            Row::Free(Some(HI_AGAIN)),
            Row::Free(Some(TITLE)),
        ],
    )?;
    same(&rt, encoder.tags(), Some(title));
    Ok(())
}

/// The text of each refusal.
#[test]
fn printed_refusals(rt: HostRuntime) -> Result<(), Fail> {
    let rows = [
        (Refusal::Silent(3), "silent for 3 slots more"),
        (Refusal::Held(2), "held back for 2 slots more"),
        (Refusal::NoText, "no text is on air"),
        (
            Refusal::OutOfText(Which::One),
            "the first tag does not end in the text",
        ),
        (
            Refusal::OutOfText(Which::Two),
            "the second tag does not end in the text",
        ),
    ];
    for (refusal, words) in rows {
        same(&rt, format!(in rt.alloc(); "{refusal}")?.as_str(), words);
    }
    Ok(())
}
