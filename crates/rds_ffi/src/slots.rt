//! What C gives as numbers: the blocks of one slot, and a spacing.
ghost use Rattle.std.specs.Prelude.{◌≡◌, ◌<◌, ◌≤◌, ◌↔◌, IfOk, IfSome, IsOk, IsSome};
ghost use Rattle.rds_ffi.specs.Slots.{Bring, IsCount};

use rds_block::Blocks;
use rds_fields::{Dwell, Late};

/// The number of blocks is neither four nor zero.
#[derive(Clone, Copy)]
pub(crate) struct BadCount;

/// Returns the blocks of a slot's group. `None` if the slot has none.
#[tactic(auto, using(std::proofs::lemmas::Grind::common_steps))]
pub(crate) fn slot_of(blocks: &[u16]) -> Result<Option<Blocks>, BadCount>
    ensures count { IsOk result ↔ IsCount blocks.now }
    ensures value { IfOk result (Bring blocks.now) }
{
    if blocks.is_empty() {
        return Ok(None);
    }
    if blocks.len() != 4 {
        return Err(BadCount);
    }
    let four = [blocks[0], blocks[1], blocks[2], blocks[3]];
    Ok(Some(Blocks::new(four)))
}

/// Returns the dwell and the lateness of these numbers of slots. `None` if one is out of its range.
pub(crate) fn spacing_of(dwell: u16, late: u16) -> Option<(Dwell, Late)>
    ensures range { IsSome result ↔ ((0 < dwell) × (late ≤ 1024)) }
    ensures dwell { IfSome result (λ both. both.0 ≡ dwell) }
    ensures late { IfSome result (λ both. both.1 ≡ late) }
{
    let dwell = Dwell::new(dwell)?;
    let late = Late::new(late)?;
    Some((dwell, late))
}
