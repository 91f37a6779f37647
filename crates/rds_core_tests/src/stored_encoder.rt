//! An encoder is plain numbers, which a program may store.

use crate::same::same;
use rds_assembly::{Name, Text};
use rds_block::Place;
use rds_encoder::{Encoder, Refusal};
use rds_fields::{Dwell, Head, Late};
use std::test::Fail;

fn station() -> Result<Encoder, Fail> {
    let head = Head {
        pi: 0xC201,
        tp: true,
        pty: Place::new(10).ok_or("pty")?,
    };
    let dwell = Dwell::new(1).ok_or("dwell")?;
    Ok(Encoder::new(head, dwell, Late::new(0).ok_or("late")?))
}

/// A copy continues where the encoder was.
#[test]
fn goes_on_from_what_is_stored(rt: HostRuntime) -> Result<(), Fail> {
    let mut encoder = station()?;
    same(&rt, encoder.tick(true).is_some(), false);
    encoder.set_text(Text::new(b"HI").map_err(|_| "text")?)?;
    encoder.set_name(Name::new(b"POP").map_err(|_| "name")?)?;
    let mut again = encoder;
    same(&rt, again.text(), Some(b"HI".as_slice()));
    same(&rt, again.name(), Some(b"POP     ".as_slice()));
    let refused = again.set_text(Text::new(b"YO").map_err(|_| "text")?);
    same(&rt, refused, Err(Refusal::Held(2)));
    let sent = again.tick(true).ok_or("a group")?;
    same(&rt, sent.to_blocks(), [0xC201, 0x2540, 0x4849, 0x0D20]);
    Ok(())
}

/// With numbers that no encoder has, each call returns.
#[test]
fn takes_any_numbers(rt: HostRuntime) -> Result<(), Fail> {
    let mut encoder = station()?;
    encoder.pty = 255;
    encoder.round = 255;
    encoder.distance = 0xFFFF_FFFF;
    encoder.silence = 0;
    encoder.text.is_on_air = 2;
    encoder.text.length = 65;
    encoder.text.next = 255;
    encoder.name.is_on_air = 2;
    encoder.name.bytes[7] = 1;
    same(&rt, encoder.text(), Some([0; 64].as_slice()));
    same(&rt, encoder.name().is_some(), true);
    same(&rt, encoder.tick(true).is_some(), false);
    let name = Name::new(b"POP").map_err(|_| "name")?;
    same(&rt, encoder.set_name(name), Ok(()));
    same(&rt, (encoder.round, encoder.wait().name), (0, 133626));
    Ok(())
}
