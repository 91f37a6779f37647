//! The time in the line of a slot, as it is written there.
ghost use Rattle.std.specs.Prelude.{◌≤◌, length};

use crate::line_stamp::{TIME, stamp_of};
use rds_arrivals::LastMinute;

/// The most bytes of a time that is kept.
const LONGEST: usize = 40;

/// The time in the line of a slot, for a person, without the blanks before it and the brackets around it (this project's
/// own rule). No contract speaks of it.
#[derive(Clone, Copy, Debug, PartialEq, Eq)]
pub struct LineTime {
    bytes: [u8; LONGEST],
    count: usize,
}

impl LineTime {
    /// Makes the value without a time.
    pub fn none() -> LineTime {
        LineTime {
            bytes: [0; LONGEST],
            count: 0,
        }
    }

    /// Returns the time in a line with these first bytes.
    // Cold path.
    #[inline(never)]
    pub fn of(start: &[u8]) -> LineTime
        requires { length start.now ≤ 60 }
    {
        let mut time = LineTime::none();
        let Some(stamp) = stamp_of(&mut LastMinute::new(), start) else {
            return time;
        };
        let text = without_brackets(start[TIME..TIME + stamp.end].trim_ascii_start());
        for (byte, place) in text.iter().zip(time.bytes.iter_mut()) {
            *place = *byte;
        }
        time.count = text.len().min(LONGEST);
        time
    }

    /// Returns the bytes of the time. None if the line has no time.
    pub fn bytes(&self) -> &[u8] {
        &self.bytes[..self.count.min(LONGEST)]
    }
}

/// Returns the bytes between brackets, or all if there are none around them.
fn without_brackets(text: &[u8]) -> &[u8] {
    match text {
        [b'[', inner @ .., b']'] => inner,
        _ => text,
    }
}
