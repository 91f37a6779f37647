//! The newest minute of a log. Most times have the minute of the one before.
ghost use Rattle.std.specs.Prelude.{◌≡◌, ◌≤◌, ◌<◌, ◌+◌, ◌^◌, IfSome, Some, length};
ghost use Rattle.rds_arrivals.specs.Stamps as specs;

use crate::stamp::minute_at;
use std::simd::prelude::*;

/// The number of bytes of a date with its hour and minute.
const MINUTE: usize = 16;

/// The bytes of a date with its hour and minute, and how many minutes came before it.
#[derive(Clone, Copy)]
pub struct LastMinute {
    bytes: [u8; MINUTE],
    minutes: u64,
    ghost same: { specs.minute_at bytes 0 ≡ Some minutes },
    ghost small: { minutes < 2 ^ 33 },
}

impl LastMinute {
    /// Starts with minute 0.
    pub fn new() -> LastMinute {
        LastMinute {
            bytes: *b"0000/01/01 00:00",
            minutes: 0,
        }
    }

    /// Returns the minute of the date and the time of day at this place, and keeps both.
    #[tactic(auto, using(std::proofs::lemmas::Bool::Decides::nat_tests, crate::proofs::Minutes::minute_of_same, crate::proofs::Minutes::minute_same))]
    pub(crate) fn minutes_at(&mut self, text: &[u8], place: usize) -> Option<u64>
        requires within { place + 16 ≤ length text.now }
        requires place { place ≤ 1 }
        ensures value { result ≡ specs.minute_at text.now place }
        ensures small { IfSome result (λ minutes. minutes < 2 ^ 33) }
    {
        let bytes = u8x16::from_slice(&text[place..]);
        if bytes.simd_eq(u8x16::from_array(self.bytes)).all() {
            return Some(self.minutes);
        }
        let minutes = minute_at(text, place)?;
        *self = LastMinute {
            bytes: bytes.to_array(),
            minutes,
        };
        Some(minutes)
    }
}
