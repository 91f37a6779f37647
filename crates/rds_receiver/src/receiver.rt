//! The receiver, and how it is made.
ghost use Rattle.std.specs.Prelude.{◌≡◌, ◌<◌, [], ℕ, Option, None, IfSome};
ghost use Rattle.rds_block.specs.declared.group.Group.{Group};
ghost use Rattle.rds_fields.specs.declared.message.Message.{Message};
ghost use Rattle.rds_receiver.specs.Receipts.{Hears};
ghost use Rattle.rds_receiver.specs.ReceiverAt.{ReceiverAt};

use crate::Window;
use crate::display::{StoredDisplay, StoredSegments};
use crate::last::StoredLastSegments;
use rds_block::{Blocks, Group};
use rds_fields::{Dwell, Message, StoredPair};

/// Returns the message that a receiver of this programme hears in a slot. `None` if no group came, or if the group has
/// another PI.
#[inline(always)]
pub fn heard(pi: u16, group: Option<Group>) -> Option<Message>
    ensures { Hears pi group result }
{
    heard_blocks(pi, Blocks::of_slot(group))
}

/// Does the same as [`heard`] for a group as its blocks.
#[inline(always)]
pub fn heard_blocks(pi: u16, group: Option<Blocks>) -> Option<Message>
    ensures { Hears pi group result }
{
    match group {
        Some(group) if group.pi() == pi => Some(Message::of_blocks(group)),
        _ => None,
    }
}

/// A receiver of one programme, which shows the text, the name and the tags. It accepts every group, from any encoder.
/// It is plain numbers, so a program may store it. With numbers that no receiver has, each call returns something
/// arbitrary.
#[repr(C)]
#[derive(Clone, Copy)]
pub struct Receiver {
    /// What it holds of the messages that count.
    pub display: StoredDisplay,
    /// The last segments heard.
    pub segments: StoredLastSegments,
    /// The last pair of tags heard.
    pub pair: StoredPair,
    /// For how many more slots, the current one included, the last pair confirms the same one.
    pub pair_left: u8,
    /// The window in slots. If it is 0, each message counts; else a message counts if it came twice within the window.
    pub window: u8,
}

impl Receiver {
    /// Makes a receiver of this programme that has heard nothing yet. Each message counts at once.
    pub fn new(pi: u16, dwell: Dwell) -> Receiver
        ensures stands { (first : ℕ)
            → ReceiverAt record { programme = pi; dwell = dwell; window = None; first = first } result [] }
    {
        Receiver::tuned(pi, dwell, None)
    }

    /// Makes a receiver of this programme that has heard nothing yet. With a window it shows only what it heard twice
    /// within it, and may get wrong groups, for example groups with corrected bits.
    pub fn tuned(pi: u16, dwell: Dwell, window: Option<Window>) -> Receiver
        ensures stands { (first : ℕ)
            → ReceiverAt record { programme = pi; dwell = dwell; window = window; first = first } result [] }
    {
        let slots = dwell.get();
        Receiver {
            display: StoredDisplay {
                pi,
                dwell: slots,
                rest: slots,
                text: StoredSegments::none(),
                name: StoredSegments::none(),
                pair: StoredPair::none(),
                is_known: 0,
            },
            segments: StoredLastSegments::none(),
            pair: StoredPair::none(),
            pair_left: 0,
            window: slots_of(window),
        }
    }
}

/// Returns the slots of a window, or 0 without one.
fn slots_of(window: Option<Window>) -> u8
    ensures none { window ≡ None → result ≡ 0 }
    ensures some { IfSome window (λ w. (result ≡ w) × (1 < w)) }
{
    match window {
        None => 0,
        Some(window) => window.get() as u8,
    }
}
