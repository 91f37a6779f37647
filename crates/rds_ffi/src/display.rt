//! A display in the caller's memory, which keeps the last text and the last name for some slots.
ghost use Rattle.std.specs.Prelude.{◌≡◌, ◌≢◌, ◌↔◌, ◌⊎◌, ℕ, [], ◌∷◌, None, Option};
ghost use Rattle.rds_block.specs.declared.group.Group.{Group};
ghost use Rattle.rds_receiver.specs.Counts.{DisplayAt};
ghost use Rattle.rds_receiver.specs.Receipts.{Tuning};
ghost use Rattle.rds_receiver.specs.ReceiverAt.{ReceiverAt, WhereReceiverStands};
ghost use Rattle.rds_ffi.specs.Codes.{RDSRT_BAD_ARGUMENT, RDSRT_CHANGED, RDSRT_OK};
ghost use Rattle.rds_ffi.specs.Slots.{Bring, IsCount};
ghost use Rattle.rds_ffi.specs.Viewed.{IsPlainView, viewed};

use crate::codes;
use crate::slots::slot_of;
use crate::view::{RdsrtView, nothing_seen, show};
use rds_receiver::{Keeping, Receiver};

/// What a display shows, and for how long it keeps it.
#[repr(C)]
#[derive(Clone, Copy)]
pub struct RdsrtDisplay {
    pub view: RdsrtView,
    pub keeping: Keeping,
}

/// Starts a display that shows nothing, before the first slot of a receiver. `keep` is in slots: for so many slots the
/// display goes on showing a text or a name that the receiver dropped. With 0 it shows what the receiver shows.
#[unsafe(no_mangle)]
pub extern "C" fn rdsrt_display_init(display: &mut RdsrtDisplay, keep: u16)
    ensures stands { (t : Tuning) → DisplayAt keep t display.new.keeping (viewed display.new.view) [] }
    ensures plain { IsPlainView display.new.view }
{
    *display = RdsrtDisplay {
        view: nothing_seen(),
        keeping: Keeping::new(keep),
    };
}

/// Handles one slot of the receiver, as `rdsrt_receiver_slot` does, and then of its display. Returns `RDSRT_OK` if the
/// view of the display did not change, and `RDSRT_CHANGED` if it may have changed.
///
/// # Errors
///
/// `RDSRT_BAD_ARGUMENT` and no change if the number of blocks is neither four nor zero.
#[unsafe(no_mangle)]
pub extern "C" fn rdsrt_display_slot(
    display: &mut RdsrtDisplay,
    receiver: &mut Receiver,
    blocks: &[u16],
) -> u32
    ensures code { result ≢ RDSRT_BAD_ARGUMENT ↔ IsCount blocks.now }
    ensures few { result ≢ RDSRT_BAD_ARGUMENT → (result ≡ RDSRT_OK) ⊎ (result ≡ RDSRT_CHANGED) }
    ensures receiver { result ≢ RDSRT_BAD_ARGUMENT → WhereReceiverStands receiver.old (λ t input.
        (slot : Option Group) × Bring blocks.now slot × ReceiverAt t receiver.new (slot ∷ input)) }
    ensures stands { result ≢ RDSRT_BAD_ARGUMENT → (n : ℕ) → WhereReceiverStands receiver.old (λ t input.
        DisplayAt n t display.old.keeping (viewed display.old.view) input
        → (slot : Option Group) × Bring blocks.now slot × ReceiverAt t receiver.new (slot ∷ input)
        × DisplayAt n t display.new.keeping (viewed display.new.view) (slot ∷ input)) }
    ensures same { result ≡ RDSRT_OK → display.new.view ≡ display.old.view }
    ensures plain { IsPlainView display.old.view → IsPlainView display.new.view }
    ensures kept { result ≡ RDSRT_BAD_ARGUMENT → (receiver.new ≡ receiver.old) × (display.new ≡ display.old) }
{
    let Ok(slot) = slot_of(blocks) else {
        return codes::BAD_ARGUMENT;
    };
    let is_changed = receiver.slot_blocks(slot);
    let change = display.keeping.slot(receiver, is_changed);
    let Some(kept) = change else {
        return codes::OK;
    };
    show(&mut display.view, kept, receiver);
    codes::CHANGED
}
