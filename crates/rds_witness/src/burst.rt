//! Bursts of lost slots, and the slots of a log without them.
ghost use Rattle.std.specs.Prelude.{◌≡◌, ◌<◌, ℕ, IfOk, None, length, slice_index_or, if◌then◌else◌};
ghost use Rattle.rds_witness.specs.Lost.{IsWhatIsLeft, has_slot, is_lost, group_left};

use rds_block::Blocks;
use std::alloc::{AllocError, Global};

/// Consecutive lost slots of a log: these two and all between them.
#[derive(Clone, Copy)]
pub struct Burst {
    pub first: usize,
    pub last: usize,
}

impl Burst {
    /// Returns whether the burst has the slot.
    pub fn has(self, slot: usize) -> bool
        ensures { result ≡ has_slot self slot }
    {
        self.first <= slot && slot <= self.last
    }
}

/// Returns whether the slot is lost.
fn is_lost(lost: &[Burst], slot: usize) -> bool
    ensures { result ≡ is_lost lost.now slot }
{
    lost.iter().any(|burst| burst.has(slot))
}

/// Returns what a receiver gets of a log: nothing in the lost slots.
pub(crate) fn received_of(
    alloc: Global,
    log: &[Option<Blocks>],
    lost: &[Burst],
) -> Result<Vec<Option<Blocks>>, AllocError>
    ensures { IfOk result (λ got. IsWhatIsLeft lost.now log.now got.items) }
{
    let mut got = Vec::new(alloc);
    got.extend_from_slice(log)?;
    for place in 0..lost.len() {
        lose(&mut got, lost[place]);
    }
    Ok(got)
}

/// Empties the slots of a burst.
fn lose(log: &mut [Option<Blocks>], burst: Burst)
    ensures long { length log.new ≡ length log.old }
    ensures lost { (n : ℕ) → n < length log.old
        → slice_index_or log.new n None ≡ if has_slot burst n then None else slice_index_or log.old n None }
{
    let end = if burst.last < log.len() {
        burst.last + 1
    } else {
        log.len()
    };
    for slot in burst.first..end {
        log[slot] = None;
    }
}

/// Returns the group of a slot of the log, or nothing if the slot is lost.
pub(crate) fn received(log: &[Option<Blocks>], lost: &[Burst], slot: usize) -> Option<Blocks>
    requires { slot < length log.now }
    ensures { result ≡ group_left lost.now log.now slot }
{
    if is_lost(lost, slot) { None } else { log[slot] }
}
