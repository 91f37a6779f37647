//! The search: looks for the first slot in which a receiver that lost a burst shows a mix.
ghost use Rattle.std.specs.Prelude.{◌≡◌, ℕ, All, IfOk, List, None, Option};
ghost use Rattle.rds_block.specs.declared.group.Group.{Group};
ghost use Rattle.rds_receiver.specs.Receipts.{tuned, Tuning};
ghost use Rattle.rds_witness.specs.Covered.{IsAt};
ghost use Rattle.rds_witness.specs.Search.{AreSeen, IsChecked, IsSure, ShowOnlySeen, StandsAfter};

use crate::burst::{Burst, received};
use crate::checking::slots_until;
use crate::covering::{Lossy, receiver_at};
use crate::seen::AllSeen;
use crate::sweep::Sweep;
use rds_block::Blocks;
use rds_fields::Dwell;
use std::alloc::{AllocError, Global};

/// The most comparisons of receivers, about.
const MOST_COMPARISONS: u64 = 500_000_000;

/// The result of a search.
#[derive(Clone, Copy)]
pub(crate) enum Found {
    /// A receiver that lost this burst may show a mix in this slot. None does before.
    Doubt(Burst, usize),
    /// No receiver shows a mix.
    Nothing,
    /// No receiver shows a mix before this slot, at which the search had made its most comparisons.
    Stopped(usize),
}

/// Returns the first slot in which a mix is not ruled out, with the burst that may make it.
pub(crate) fn find(
    alloc: Global,
    log: &[Option<Blocks>],
    pi: u16,
    dwell: Dwell,
) -> Result<Found, AllocError>
    ensures { IfOk result (λ found. IsSure (tuned pi dwell) log.now found) }
{
    let all = AllSeen::of(alloc, log, pi, dwell)?;
    let mut sweep = Sweep::new(alloc, pi, dwell);
    let mut comparisons = 0u64;
    for slot in 0..log.len() {
        sweep.next(alloc, &received(log, &[], slot), slot)?;
        comparisons = comparisons.saturating_add(sweep.comparisons());
        if comparisons > MOST_COMPARISONS {
            return Ok(Found::Stopped(slot));
        }
        let slots = slots_until(log, dwell, slot);
        if let Some(burst) = doubt_of(&all, slots, &sweep) {
            return Ok(Found::Doubt(burst, slot));
        }
    }
    Ok(Found::Nothing)
}

/// Returns the burst of the first receiver that shows a part which a receiver without a loss does not show in some of
/// the first slots.
fn doubt_of(all: &AllSeen, slots: usize, sweep: &Sweep) -> Option<Burst>
    ensures { result ≡ None → (t : Tuning) (n : ℕ) (log : List (Option Group)) → StandsAfter t log n sweep.now
        → AreSeen t log all.now → All (IsChecked t log slots) sweep.now.losing.items
        → All (IsChecked t log slots) sweep.now.hearing.items
        → ShowOnlySeen t log slots sweep.now.losing.items × ShowOnlySeen t log slots sweep.now.hearing.items }
{
    if let Some(burst) = first_doubt(all, slots, sweep.hearing.as_slice()) {
        return Some(burst);
    }
    first_doubt(all, slots, sweep.losing.as_slice())
}

/// Returns the burst of the first of these receivers that does.
fn first_doubt(all: &AllSeen, slots: usize, receivers: &[Lossy]) -> Option<Burst>
    ensures { result ≡ None → (t : Tuning) (n : ℕ) (log : List (Option Group)) → All (IsAt t n) receivers.now
        → AreSeen t log all.now → All (IsChecked t log slots) receivers.now → ShowOnlySeen t log slots receivers.now }
{
    for place in 0..receivers.len() {
        let one = receiver_at(receivers, place);
        if !all.has_all(slots, one) {
            return Some(one.burst);
        }
    }
    None
}
