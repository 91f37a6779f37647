//! Tests of groups and their messages: texts, names, announcements and tags.

use crate::same::same;
use rds_block::{Group, Place};
use rds_fields::{Head, Message, Tag, TagPair, TagRefused, rtplus_announcement};
use std::process::Abort;
use std::test::Fail;

/// The head of PI C201, TP 0, PTY 10.
fn head() -> Result<Head, Fail> {
    Ok(Head {
        pi: 0xC201,
        tp: false,
        pty: Place::new(10).ok_or("pty")?,
    })
}

fn text(flag: bool, address: u8, bytes: [u8; 4]) -> Result<Message, Fail> {
    Ok(Message::Text {
        flag,
        address: Place::new(address).ok_or("address")?,
        bytes,
    })
}

fn name(flag: bool, address: u8, bytes: [u8; 4]) -> Result<Message, Fail> {
    Ok(Message::Name {
        flag,
        address: Place::new(address).ok_or("address")?,
        bytes,
    })
}

/// The pair of these bits, its tags given by class, start and length marker.
fn tags(bits: (bool, bool), one: (u8, u8, u8), two: (u8, u8, u8)) -> Result<Message, Fail> {
    let one = Tag::new(one.0, one.1, one.2)?;
    let two = Tag::new(two.0, two.1, two.2)?;
    Ok(Message::Tags(TagPair::new(bits.0, bits.1, one, two)?))
}

/// Each message is written as these words, and they are read as it.
fn both_ways(rt: &impl Abort, head: &Head, rows: &[(Message, [u16; 4])]) -> Result<(), Fail> {
    for (message, words) in rows {
        let group = message.group(*head).ok_or("no group")?;
        same(rt, group.to_blocks(), *words);
        same(rt, Message::of(&Group::from_blocks(*words)), *message);
    }
    Ok(())
}

/// The artist and the title of a text.
#[test]
fn waterloo_tags(rt: HostRuntime) -> Result<(), Fail> {
    let one = Tag::new(4, 0, 3)?;
    let two = Tag::new(1, 7, 7)?;
    same(&rt, (two.class(), two.start(), two.extra()), (1, 7, 7));
    same(&rt, two.end(), 15);
    let pair = TagPair::new(true, true, one, two)?;
    same(&rt, (pair.toggle(), pair.running()), (true, true));
    same(&rt, (pair.one(), pair.two()), (one, two));
    let words = [0xC201, 0xB158, 0x8006, 0x08E7];
    both_ways(&rt, &head()?, &[(Message::Tags(pair), words)])
}

/// The pieces of a text of 15 characters that tags name, by class, start and length marker.
#[test]
fn pieces(rt: HostRuntime) -> Result<(), Fail> {
    let text = b"ABBA - WATERLOO";
    let rows = [
        ((4, 0, 3), true, Some(b"ABBA".as_slice())),
        ((1, 7, 7), true, Some(b"WATERLOO".as_slice())),
        ((1, 15, 0), false, None),
        ((0, 0, 0), true, None),
    ];
    for ((class, start, extra), ends, piece) in rows {
        let tag = Tag::new(class, start, extra)?;
        same(&rt, (start, tag.ends_in(text.len())), (start, ends));
        same(&rt, (start, tag.piece_in(text)), (start, piece));
    }
    Ok(())
}

/// The refused tags, and the text of each refusal.
#[test]
fn refused_tags(rt: HostRuntime) -> Result<(), Fail> {
    let rows = [
        ((64, 64, 64), TagRefused::Class, "the class is over 63"),
        ((5, 64, 64), TagRefused::Start, "the start is over 63"),
        (
            (5, 0, 64),
            TagRefused::Extra,
            "the length marker is over its bits",
        ),
        (
            (0, 0, 1),
            TagRefused::DummyNotZero,
            "class 0 with a start or a length marker",
        ),
    ];
    for ((class, start, extra), refused, printed) in rows {
        same(&rt, Tag::new(class, start, extra), Err(refused));
        same(&rt, format!(in rt.alloc(); "{refused}")?.as_str(), printed);
    }
    Ok(())
}

/// The groups of the project's table.
#[test]
fn vectors(rt: HostRuntime) -> Result<(), Fail> {
    let dummy = (0, 0, 0);
    let rows = [
        (text(true, 0, *b"YO\r ")?, [0xC201, 0x2150, 0x594F, 0x0D20]),
        (text(false, 3, *b"LOO\r")?, [0xC201, 0x2143, 0x4C4F, 0x4F0D]),
        (name(false, 1, *b" FM ")?, [0xC201, 0xA141, 0x2046, 0x4D20]),
        (rtplus_announcement(), [0xC201, 0x3156, 0x0000, 0x4BD7]),
        (
            tags((false, true), (1, 0, 63), dummy)?,
            [0xC201, 0xB148, 0x207E, 0x0000],
        ),
        (
            tags((false, true), (1, 0, 1), dummy)?,
            [0xC201, 0xB148, 0x2002, 0x0000],
        ),
    ];
    both_ways(&rt, &head()?, &rows)
}
