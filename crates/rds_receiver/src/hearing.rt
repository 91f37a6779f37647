//! How a receiver handles a slot.
ghost use Rattle.std.specs.Prelude.{◌≡◌, ◌≢◌, ◌+◌, ◌<◌, ℕ, IsFalse, List, Option, Some, length};
ghost use Rattle.rds_block.specs.declared.group.Group.{Group};
ghost use Rattle.rds_fields.specs.declared.message.Message.{Message};
ghost use Rattle.rds_receiver.specs.Confirming.{ConfirmsIf, HearsSlot, HoldsLastsIn};
ghost use Rattle.rds_receiver.specs.Holds.{HoldsAt, ShowsAlike, newest_slot};
ghost use Rattle.rds_receiver.specs.ReceiverAt.{KeepsShowing, KeepsView, TakesSlot};
ghost use Rattle.rds_receiver.specs.Stored.{IsStoredReceiver, display_stored, receiver_stored};
ghost use Rattle.rds_receiver.specs.Confirmed.{counted_in};
ghost use Rattle.rds_receiver.specs.Receipts.{name_of, text_of};

use crate::last::TEXT_CELLS;
use crate::receiver::heard_blocks;
use crate::{Fragment, Receiver};
use rds_block::{Blocks, Group};
use rds_fields::{Message, StoredPair, TagPair};

impl Receiver {
    /// Handles one slot, with a group or nothing. Call this or `slot_blocks` exactly once for each slot. If it returns
    /// false, the view did not change.
    pub fn slot(&mut self, group: Option<Group>) -> bool
        ensures stands { TakesSlot self.old self.new group }
        ensures same { IsFalse result → KeepsView self.old group }
        ensures goes_on { IsFalse result → KeepsShowing self.old group }
    {
        self.slot_blocks(Blocks::of_slot(group))
    }

    /// Does the same as [`slot`](Self::slot) for a group as its blocks.
    #[inline(always)]
    pub fn slot_blocks(&mut self, group: Option<Blocks>) -> bool
        ensures stands { TakesSlot self.old self.new group }
        ensures same { IsFalse result → KeepsView self.old group }
        ensures goes_on { IsFalse result → KeepsShowing self.old group }
    {
        let aged = self.display.grow_older();
        let is_new = self.hear(group);
        is_new | aged
    }

    /// Handles the group of a slot after the display aged. If it returns false, all that is shown stays the same.
    #[inline(always)]
    fn hear(&mut self, group: Option<Blocks>) -> bool
        ensures programme { self.new.display.pi ≡ self.old.display.pi }
        ensures holds { IsStoredReceiver self.old
            → HearsSlot (receiver_stored self.old) (receiver_stored self.new) group }
        ensures same { IsFalse result → ShowsAlike (display_stored self.old.display) (display_stored self.new.display) }
        ensures good { IsStoredReceiver self.old → IsStoredReceiver self.new }
    {
        if self.window > 0 {
            return self.hear_if_confirmed(group);
        }
        let Some(message) = heard_blocks(self.display.pi, group) else {
            return false;
        };
        self.display.hear(message)
    }

    /// Does the same with a window: a message that is not confirmed does not count.
    // Reads the message itself. With one handed over, `hear` would put it together in each slot without a window too.
    #[inline(never)]
    fn hear_if_confirmed(&mut self, group: Option<Blocks>) -> bool
        requires { 0 < self.old.window }
        ensures programme { self.new.display.pi ≡ self.old.display.pi }
        ensures holds { IsStoredReceiver self.old
            → HearsSlot (receiver_stored self.old) (receiver_stored self.new) group }
        ensures same { IsFalse result → ShowsAlike (display_stored self.old.display) (display_stored self.new.display) }
        ensures good { IsStoredReceiver self.old → IsStoredReceiver self.new }
    {
        self.age_lasts();
        let Some(message) = heard_blocks(self.display.pi, group) else {
            return false;
        };
        // Prover: a new name before the second use (PROVER.md, "Workarounds").
        let confirmed = message;
        if !self.confirm(message) {
            return false;
        }
        self.display.hear(confirmed)
    }

    /// Ages the last segments and the last pair by one slot, after the display.
    fn age_lasts(&mut self)
        ensures display { self.new.display ≡ self.old.display }
        ensures lasts { IsStoredReceiver self.old → (w m first : ℕ) (heard : List (Option Message))
            → HoldsAt m (first + length heard) first (display_stored self.old.display)
            (counted_in (Some w) m first heard)
            → HoldsLastsIn (Some w) m (newest_slot first heard) first (receiver_stored self.old) heard
            → HoldsLastsIn (Some w) m (first + length heard) first (receiver_stored self.new) heard }
        ensures good { IsStoredReceiver self.old → IsStoredReceiver self.new }
    {
        self.segments.grow_older();
        self.pair_left = self.while_text_is_held(self.pair_left.saturating_sub(1));
    }

    /// Returns whether the message is confirmed, and keeps it as the last one heard.
    fn confirm(&mut self, message: Message) -> bool
        ensures display { self.new.display ≡ self.old.display }
        ensures confirms { IsStoredReceiver self.old
            → ConfirmsIf (receiver_stored self.old) (receiver_stored self.new) message result }
        ensures good { IsStoredReceiver self.old → IsStoredReceiver self.new }
    {
        match message {
            Message::Text {
                flag,
                address,
                bytes,
            } => self.confirm_text(Fragment::new(flag, address, bytes)),
            Message::Name {
                flag,
                address,
                bytes,
            } => self.confirm_name(Fragment::new(flag, address, bytes)),
            Message::Tags(pair) => self.confirm_tags(pair),
            Message::Announce { .. } | Message::Other => true,
        }
    }

    /// Does the same for a text segment. If it begins a new run, the last pair of tags confirms nothing.
    fn confirm_text(&mut self, fragment: Fragment) -> bool
        requires { fragment.address < 16 }
        ensures display { self.new.display ≡ self.old.display }
        ensures confirms { ConfirmsIf (receiver_stored self.old) (receiver_stored self.new) (text_of fragment) result }
        ensures good { IsStoredReceiver self.old → IsStoredReceiver self.new }
    {
        let again = self.segments.take(fragment.address, fragment, self.window);
        if again && !self.display.text.has_flag(fragment.flag) {
            self.pair_left = 0;
        }
        again
    }

    /// Does the same for a segment of a name.
    fn confirm_name(&mut self, fragment: Fragment) -> bool
        requires { fragment.address < 2 }
        ensures display { self.new.display ≡ self.old.display }
        ensures confirms { ConfirmsIf (receiver_stored self.old) (receiver_stored self.new) (name_of fragment) result }
        ensures good { IsStoredReceiver self.old → IsStoredReceiver self.new }
    {
        self.segments
            .take(TEXT_CELLS + fragment.address, fragment, self.window)
    }

    /// Does the same for a pair of tags. It confirms the same one only if segments of a text are held.
    fn confirm_tags(&mut self, pair: TagPair) -> bool
        ensures display { self.new.display ≡ self.old.display }
        ensures confirms { IsStoredReceiver self.old
            → ConfirmsIf (receiver_stored self.old) (receiver_stored self.new) (Message.Tags pair) result }
        ensures good { IsStoredReceiver self.old → IsStoredReceiver self.new }
    {
        let again = self.pair_left > 0 && self.pair.pair() == Some(pair);
        self.pair = StoredPair::of(Some(pair));
        self.pair_left = self.while_text_is_held(self.window);
        again
    }

    /// Returns this number if segments of a text are held, or else 0.
    fn while_text_is_held(&self, left: u8) -> u8
        ensures held { self.now.display.text.mask ≢ 0 → result ≡ left }
        ensures none { self.now.display.text.mask ≡ 0 → result ≡ 0 }
    {
        if self.display.text.is_held() { left } else { 0 }
    }
}
