//! Questions about all 64 bytes at once: bit i of an answer is for byte i.
ghost use Rattle.rds_assembly.specs.Lanes.{AreReturns, IsSpread};

use crate::radio_text::CARRIAGE_RETURN;
use std::simd::prelude::*;

/// Returns which bytes are carriage returns.
pub(crate) fn returns_in(bytes: &[u8; 64]) -> u64
    ensures { AreReturns bytes.now result }
{
    u8x64::from_array(*bytes)
        .simd_eq(u8x64::splat(CARRIAGE_RETURN))
        .to_bitmask()
}

/// Returns which bytes are of segments whose bit is set: each bit of the mask, four times.
#[tactic(auto, using(crate::proofs::LanesLemmas::spread_all))]
pub(crate) fn spread(mask: u16) -> u64
    ensures { IsSpread mask result }
{
    // Each name gives the number of mask bits side by side. Such pieces begin at multiples of four times their length,
    // until each bit alone has four places.
    let sixteen = u64::from(mask);
    let eights = (sixteen | sixteen << 24) & 0x0000_00FF_0000_00FF;
    let fours = (eights | eights << 12) & 0x000F_000F_000F_000F;
    let twos = (fours | fours << 6) & 0x0303_0303_0303_0303;
    let ones = (twos | twos << 3) & 0x1111_1111_1111_1111;
    let pairs = ones | ones << 1;
    pairs | pairs << 2
}
