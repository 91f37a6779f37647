//! Segments that are put together, texts and names.

use crate::same::same;
use rds_assembly::{
    Assembly, CARRIAGE_RETURN, Name, RadioText, Text, TextRefused, TypeName, is_text_byte,
};
use std::test::Fail;

/// A call on the held segments.
#[derive(Clone, Copy)]
enum Call {
    Put(u8, [u8; 4]),
    Clear,
}

/// The complete value after each call of one run. Dropped segments do not come back.
#[test]
fn one_run(rt: HostRuntime) {
    let run: [(Call, Option<&[u8]>); 9] = [
        (Call::Put(0, *b"HI\r "), Some(b"HI")),
        (Call::Put(0, *b"ABBA"), None),
        (Call::Put(1, *b"\r   "), Some(b"ABBA")),
        (Call::Put(3, *b"\r   "), Some(b"ABBA")),
        (Call::Put(1, *b"XXXX"), None),
        (Call::Put(2, *b"YYYY"), Some(b"ABBAXXXXYYYY")),
        (Call::Clear, None),
        (Call::Put(2, *b"YYYY"), None),
        (Call::Put(0, *b"ABBA"), None),
    ];
    let mut text: Assembly<RadioText> = Assembly::new();
    same(&rt, text.whole(), None);
    for (call, whole) in run {
        match call {
            Call::Put(address, bytes) => assert!(rt; text.put(address, bytes)),
            Call::Clear => text.clear(),
        }
        same(&rt, text.whole(), whole);
    }
}

/// A segment that is already held is no change.
#[test]
fn held_again(rt: HostRuntime) {
    let mut name: Assembly<TypeName> = Assembly::new();
    assert!(rt; name.is_empty());
    assert!(rt; name.put(1, [0; 4]));
    assert!(rt; !name.put(1, [0; 4]));
    assert!(rt; name.has(1) && !name.has(0) && !name.is_empty());
}

/// A carriage return and spaces follow a text, in a segment of their own if necessary.
#[test]
fn texts_there_and_back(rt: HostRuntime) -> Result<(), Fail> {
    let texts: [(&[u8], u8, [u8; 4]); 6] = [
        (b"", 1, [0x0D, 0x20, 0x20, 0x20]),
        (b"HI", 1, [0x48, 0x49, 0x0D, 0x20]),
        (b"ABBA", 2, [0x0D, 0x20, 0x20, 0x20]),
        (b"NOW ON AIR", 3, [0x49, 0x52, 0x0D, 0x20]),
        (&[b'A'; 63], 16, [0x41, 0x41, 0x41, 0x0D]),
        (&[b'A'; 64], 16, [0x41, 0x41, 0x41, 0x41]),
    ];
    for (bytes, count, last) in texts {
        let sent = Text::new(bytes)?;
        same(&rt, sent.count(), count);
        same(&rt, sent.segment(sent.count() - 1), last);
        let mut held: Assembly<RadioText> = Assembly::new();
        for address in 0..sent.count() {
            same(&rt, held.whole(), None);
            assert!(rt; held.put(address, sent.segment(address)));
        }
        same(&rt, held.whole(), Some(bytes));
    }
    Ok(())
}

/// A name is filled with spaces to eight bytes.
#[test]
fn segments_of_names(rt: HostRuntime) -> Result<(), Fail> {
    let name = Name::new(b"JAZZ FM")?;
    same(&rt, name.bytes(), b"JAZZ FM ".as_slice());
    same(&rt, name.count(), 2);
    same(&rt, name.segment(0), *b"JAZZ");
    same(&rt, name.segment(1), *b" FM ");
    Ok(())
}

/// Each refusal, and its text.
#[test]
fn refused_bytes(rt: HostRuntime) -> Result<(), Fail> {
    let names: [(&[u8], TextRefused, &str); 2] = [
        (
            b"NINEBYTES",
            TextRefused::TooLong,
            "there are too many bytes",
        ),
        (
            &[0x41, 0x0A],
            TextRefused::BadByte(1),
            "the byte at place 1 may not stand there",
        ),
    ];
    for (bytes, refused, printed) in names {
        same(&rt, Name::new(bytes), Err(refused));
        same(&rt, format!(in rt.alloc(); "{refused}")?.as_str(), printed);
    }
    assert!(rt; is_text_byte(0x0A) && !is_text_byte(CARRIAGE_RETURN));
    Ok(())
}
