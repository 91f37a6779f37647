//! Drops each receiver that holds only a part of what another kept one holds.
ghost use Rattle.std.specs.Prelude.{◌≡◌, ◌≤◌, ◌<◌, ◌⊎◌, ◌∷◌, ◌+◌, All, IsTrue, List, None, OnOk, Option, Some, length};
ghost use Rattle.std.specs.Prelude.{slice_index_or, true, ℕ};
ghost use Rattle.std.specs.FinMap.{get};
ghost use Rattle.rds_assembly.specs.Body.{segment_of};
ghost use Rattle.rds_assembly.specs.Held.{held_cells};
ghost use Rattle.rds_fields.specs.Stored.{is_set, pair_stored, tag_stored};
ghost use Rattle.rds_block.specs.declared.group.Group.{Group};
ghost use Rattle.rds_receiver.specs.ReceiverAt.{ReceiverAt, TakesSlot};
ghost use Rattle.rds_receiver.specs.Receipts.{tuned, Tuning};
ghost use Rattle.rds_witness.specs.Covered.{IsAt, IsInputPart, Keeps, KeepsNext};
ghost use Rattle.rds_witness.specs.Search.{IsChecked, ShowOnlySeen, ShowsOnlySeen};
ghost use Rattle.rds_witness.specs.Part.{HasCells, IsPairPart};
ghost use Rattle.rds_witness.specs.declared.covering.Lossy.{Lossy};

use crate::burst::Burst;
use rds_assembly::is_same_segment;
use rds_block::Blocks;
use rds_fields::{StoredPair, StoredTag};
use rds_receiver::{Receiver, StoredDisplay, StoredSegments};
use std::alloc::AllocError;

/// The most segments that are held.
const SEGMENTS: u8 = 16;

/// A receiver that lost a burst.
#[derive(Clone, Copy)]
pub(crate) struct Lossy {
    pub(crate) receiver: Receiver,
    pub(crate) burst: Burst,
    /// Whether its view may have changed in the newest slot.
    pub(crate) changed: bool,
}

/// Returns whether the first receiver holds nothing at the address, or the second one holds the same bytes there.
fn has_segment(one: &StoredSegments, other: &StoredSegments, address: u8) -> bool
    requires { address < 16 }
    ensures { IsTrue result → (b : List ℕ) → get (held_cells one.now.mask one.now.bytes) address ≡ Some b
        → get (held_cells other.now.mask other.now.bytes) address ≡ Some b }
{
    let is_held = one.mask >> address & 1 == 1;
    if !is_held {
        return true;
    }
    let is_there = other.mask >> address & 1 == 1;
    if !is_there {
        return false;
    }
    is_same_segment(segment_at(one, address), segment_at(other, address))
}

/// Returns the bytes at the address.
fn segment_at(stored: &StoredSegments, address: u8) -> &[u8]
    requires { address < 16 }
    ensures bytes { result.now ≡ segment_of stored.now.bytes address }
    ensures long { length result.now ≡ 4 }
{
    let first = 4 * usize::from(address);
    &stored.bytes[first..first + 4]
}

/// Returns whether the first receiver holds a part of what the second one holds, and heard its newest segment at the
/// same time or earlier, by the ages of both. An empty receiver is a part of every other.
pub(crate) fn is_part(
    one: &StoredSegments,
    other: &StoredSegments,
    one_age: u16,
    other_age: u16,
) -> bool
    ensures cells { IsTrue result
        → HasCells (held_cells one.now.mask one.now.bytes) (held_cells other.now.mask other.now.bytes) }
    ensures newer { IsTrue result → (one.now.mask ≡ 0)
        ⊎ ((is_set one.now.flag ≡ is_set other.now.flag) × (other_age ≤ one_age)) }
{
    if one.mask == 0 {
        return true;
    }
    let flag = one.flag != 0;
    let other_flag = other.flag != 0;
    if flag != other_flag || one_age < other_age {
        return false;
    }
    for address in 0..SEGMENTS {
        if !has_segment(one, other, address) {
            return false;
        }
    }
    true
}

/// Returns whether two tags are equal.
fn is_same_tag(one: &StoredTag, other: &StoredTag) -> bool
    ensures { IsTrue result → tag_stored one.now ≡ tag_stored other.now }
{
    one.class == other.class && one.start == other.start && one.extra == other.extra
}

/// Returns whether the first receiver holds no pair of tags, or the pair that the second one holds.
fn is_pair_part(one: &StoredPair, other: &StoredPair) -> bool
    ensures { IsTrue result → IsPairPart (pair_stored one.now) (pair_stored other.now) }
{
    if one.is_there == 0 {
        return true;
    }
    one.is_there == other.is_there
        && one.toggle == other.toggle
        && one.running == other.running
        && is_same_tag(&one.one, &other.one)
        && is_same_tag(&one.two, &other.two)
}

/// Returns whether the first receiver does not know RadioText Plus, or the second one knows it too.
fn is_known_part(one: &StoredDisplay, other: &StoredDisplay) -> bool
    ensures { IsTrue result → is_set one.now.is_known ≡ true → is_set other.now.is_known ≡ true }
{
    one.is_known == 0 || other.is_known != 0
}

/// Returns whether the first receiver holds a part of what the second one holds, if both heard as many slots.
pub(crate) fn is_receiver_part(one: &Receiver, other: &Receiver) -> bool
    ensures { IsTrue result → (pi m : ℕ) (input more : List (Option Group))
        → ReceiverAt (tuned pi m) one.now input → ReceiverAt (tuned pi m) other.now more
        → length input ≡ length more → IsInputPart (tuned pi m) input more }
{
    let (one, other) = (&one.display, &other.display);
    if !is_known_part(one, other) {
        return false;
    }
    if !is_pair_part(&one.pair, &other.pair) {
        return false;
    }
    is_part(&one.text, &other.text, one.text_age(), other.text_age())
        && is_part(&one.name, &other.name, one.name_age(), other.name_age())
}

/// Lets the receiver handle a slot. `lost` is the number of the slot if the receiver lost it.
pub(crate) fn take_slot(one: &mut Lossy, group: Option<Blocks>, lost: Option<usize>)
    ensures stands { TakesSlot one.old.receiver one.new.receiver group }
    ensures same { (t : Tuning) (log : List (Option Group)) (k : ℕ) (input : List (Option Group))
        → ReceiverAt t one.old.receiver input → ShowsOnlySeen t log k one.old.receiver → IsChecked t log k one.new }
{
    one.changed = one.receiver.slot_blocks(group);
    if let Some(last) = lost {
        one.burst.last = last;
    }
}

/// Overwrites a receiver with the one without a loss, after it lost this slot.
pub(crate) fn lose_first(begins: &mut Lossy, whole: &Lossy, slot: usize)
    ensures stands { TakesSlot whole.now.receiver begins.new.receiver None }
    ensures changed { IsTrue begins.new.changed }
{
    // a new value would be copied once more
    begins.receiver = whole.receiver;
    let _ = begins.receiver.slot_blocks(None);
    begins.burst = Burst {
        first: slot,
        last: slot,
    };
    begins.changed = true;
}

/// Returns the receiver at this place.
pub(crate) fn receiver_at(receivers: &[Lossy], place: usize) -> &Lossy
    requires { place < length receivers.now }
    ensures { (d : Lossy) → slice_index_or receivers.now place d ≡ result.now }
{
    &receivers[place]
}

/// Keeps a receiver, unless the one without a loss or a kept one holds all that it holds.
pub(crate) fn keep(whole: &Lossy, kept: &mut Vec<Lossy>, one: &Lossy) -> Result<(), AllocError>
    ensures covers { OnOk result ((pi m n : ℕ) → All (IsAt (tuned pi m) n) (whole.now ∷ kept.old.items)
        → IsAt (tuned pi m) n one.now
        → Keeps (tuned pi m) n one.now (whole.now ∷ kept.old.items) (whole.now ∷ kept.new.items)) }
    ensures checked { OnOk result ((t : Tuning) (log : List (Option Group)) (k : ℕ)
        → All (IsChecked t log k) kept.old.items → IsChecked t log k one.now → All (IsChecked t log k) kept.new.items) }
{
    if is_receiver_part(&one.receiver, &whole.receiver) {
        return Ok(());
    }
    for place in 0..kept.len() {
        if is_receiver_part(&one.receiver, &receiver_at(kept.as_slice(), place).receiver) {
            return Ok(());
        }
    }
    kept.push(*one)?;
    Ok(())
}

/// Lets each of the receivers handle a slot, and keeps it.
pub(crate) fn keep_after_slot(
    whole: &Lossy,
    receivers: &[Lossy],
    group: &Option<Blocks>,
    lost: Option<usize>,
    kept: &mut Vec<Lossy>,
) -> Result<(), AllocError>
    ensures covers { OnOk result ((pi m n : ℕ) → All (IsAt (tuned pi m) n) receivers.now
        → All (IsAt (tuned pi m) (n + 1)) (whole.now ∷ kept.old.items)
        → KeepsNext (tuned pi m) n group.now receivers.now (whole.now ∷ kept.old.items) (whole.now ∷ kept.new.items)) }
    ensures checked { OnOk result ((pi m n k : ℕ) (log : List (Option Group)) → All (IsAt (tuned pi m) n) receivers.now
        → ShowOnlySeen (tuned pi m) log k receivers.now → All (IsChecked (tuned pi m) log k) kept.old.items
        → All (IsChecked (tuned pi m) log k) kept.new.items) }
{
    for place in 0..receivers.len() {
        let mut later = *receiver_at(receivers, place);
        take_slot(&mut later, *group, lost);
        keep(whole, kept, &later)?;
    }
    Ok(())
}
