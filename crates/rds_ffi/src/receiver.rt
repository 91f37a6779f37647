//! A receiver in the caller's memory.
ghost use Rattle.std.specs.Prelude.{◌≡◌, ◌≢◌, ◌<◌, ◌↔◌, ◌⊎◌, ℕ, [], ◌∷◌, None, Option, Some};
ghost use Rattle.rds_block.specs.declared.group.Group.{Group};
ghost use Rattle.rds_receiver.specs.Receipts.{heard_of};
ghost use Rattle.rds_receiver.specs.Shown.{IsView, ShownView};
ghost use Rattle.rds_receiver.specs.Tags.{pair_held};
ghost use Rattle.rds_receiver.specs.Confirmed.{counted};
ghost use Rattle.rds_receiver.specs.ReceiverAt.{ReceiverAt, WhereReceiverStands};
ghost use Rattle.rds_ffi.specs.Codes.{RDSRT_BAD_ARGUMENT, RDSRT_CHANGED, RDSRT_OK};
ghost use Rattle.rds_ffi.specs.Slots.{Bring, IsCount};
ghost use Rattle.rds_ffi.specs.Viewed.{ShowsTagsOf, IsPlainView, viewed};

use crate::codes;
use crate::slots::slot_of;
use crate::view::{RdsrtView, show};
use rds_fields::Dwell;
use rds_receiver::{NOTHING_KEPT, Receiver, Window};

/// Makes a receiver of this programme that heard nothing yet. The dwell is in slots.
///
/// # Errors
///
/// `RDSRT_BAD_ARGUMENT` and no change if the dwell is 0.
#[unsafe(no_mangle)]
pub extern "C" fn rdsrt_receiver_init(receiver: &mut Receiver, pi: u16, dwell: u16) -> u32
    ensures code { result ≡ RDSRT_OK ↔ 0 < dwell }
    ensures bad { result ≢ RDSRT_OK → result ≡ RDSRT_BAD_ARGUMENT }
    ensures stands { result ≡ RDSRT_OK → (first : ℕ)
        → ReceiverAt record { programme = pi; dwell = dwell; window = None; first = first }
        receiver.new [] }
    ensures kept { result ≢ RDSRT_OK → receiver.new ≡ receiver.old }
{
    let Some(dwell) = Dwell::new(dwell) else {
        return codes::BAD_ARGUMENT;
    };
    *receiver = Receiver::new(pi, dwell);
    codes::OK
}

/// Does the same for a receiver that shows only what it heard twice within a window. The window is in slots, too.
///
/// # Errors
///
/// `RDSRT_BAD_ARGUMENT` and no change if the dwell is 0, or if the window is below 2 or above 255.
#[unsafe(no_mangle)]
pub extern "C" fn rdsrt_receiver_init_confirming(
    receiver: &mut Receiver,
    pi: u16,
    dwell: u16,
    window: u16,
) -> u32
    ensures code { result ≡ RDSRT_OK ↔ ((0 < dwell) × (1 < window) × (window < 256)) }
    ensures bad { result ≢ RDSRT_OK → result ≡ RDSRT_BAD_ARGUMENT }
    ensures stands { result ≡ RDSRT_OK → (first : ℕ)
        → ReceiverAt record { programme = pi; dwell = dwell; window = Some window; first = first }
        receiver.new [] }
    ensures kept { result ≢ RDSRT_OK → receiver.new ≡ receiver.old }
{
    let Some(dwell) = Dwell::new(dwell) else {
        return codes::BAD_ARGUMENT;
    };
    let Some(window) = Window::new(window) else {
        return codes::BAD_ARGUMENT;
    };
    *receiver = Receiver::tuned(pi, dwell, Some(window));
    codes::OK
}

/// Handles one slot: the four blocks of a group, or no blocks if none came. Returns `RDSRT_OK` if the view did not
/// change, and `RDSRT_CHANGED` if it may have changed.
///
/// # Errors
///
/// `RDSRT_BAD_ARGUMENT` and no change if the number of blocks is neither four nor zero.
#[unsafe(no_mangle)]
pub extern "C" fn rdsrt_receiver_slot(receiver: &mut Receiver, blocks: &[u16]) -> u32
    ensures code { result ≢ RDSRT_BAD_ARGUMENT ↔ IsCount blocks.now }
    ensures few { result ≢ RDSRT_BAD_ARGUMENT → (result ≡ RDSRT_OK) ⊎ (result ≡ RDSRT_CHANGED) }
    ensures stands { result ≢ RDSRT_BAD_ARGUMENT → WhereReceiverStands receiver.old (λ t input.
        (slot : Option Group) × Bring blocks.now slot × ReceiverAt t receiver.new (slot ∷ input)) }
    ensures same { result ≡ RDSRT_OK → (view : ShownView) → WhereReceiverStands receiver.old (λ t input.
        IsView t input view → (slot : Option Group) × Bring blocks.now slot × IsView t (slot ∷ input) view) }
    ensures kept { result ≡ RDSRT_BAD_ARGUMENT → receiver.new ≡ receiver.old }
{
    let Ok(slot) = slot_of(blocks) else {
        return codes::BAD_ARGUMENT;
    };
    if receiver.slot_blocks(slot) {
        codes::CHANGED
    } else {
        codes::OK
    }
}

/// Writes the view of the receiver.
#[unsafe(no_mangle)]
pub extern "C" fn rdsrt_receiver_view(receiver: &Receiver, view: &mut RdsrtView)
    ensures shown { WhereReceiverStands receiver.now (λ t input. IsView t input (viewed view.new)) }
    ensures tags { WhereReceiverStands receiver.now (λ t input.
        ShowsTagsOf (pair_held t.dwell t.first (counted t (heard_of t.programme input))) view.new) }
    ensures plain { IsPlainView view.new }
{
    show(view, NOTHING_KEPT, receiver);
}
