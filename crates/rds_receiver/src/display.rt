//! The display of a receiver, as plain numbers: all that it holds of the messages that count.
ghost use Rattle.std.specs.Prelude.{◌≡◌, ◌≢◌, ◌+◌, ◌-◌, ◌<◌, ℕ, IsFalse, List, None, Option, length};
ghost use Rattle.rds_fields.specs.declared.message.Message.{Message};
ghost use Rattle.rds_fields.specs.Stored.{IsStoredPair, is_set, pair_stored};
ghost use Rattle.rds_receiver.specs.Older.{IsOlder};
ghost use Rattle.rds_receiver.specs.Holds.{HearsMore, HoldsAt, ShowsAlike, newest_slot};
ghost use Rattle.rds_receiver.specs.Kept.{flag_of};
ghost use Rattle.rds_receiver.specs.Receipts.{name_fragment, segments, text_fragment, text_of};
ghost use Rattle.rds_receiver.specs.Run.{run};
ghost use Rattle.rds_receiver.specs.Tags.{or_before, says_of_rtplus, unless_contrary};
ghost use Rattle.rds_receiver.specs.Stored.{IsStoredDisplay, display_stored};

use crate::Fragment;
use rds_assembly::{LONGEST_TEXT, RadioText, TypeName};
use rds_fields::{Message, RTPLUS_AID, RTPLUS_CODE, StoredPair, TagPair};

/// The held segments of one service. Segment a has the bytes at the places 4 * a to 4 * a + 3. It is held if bit a of
/// the mask is 1. The flag is 0 for no and any other number for yes.
#[repr(C)]
#[derive(Clone, Copy)]
pub struct StoredSegments {
    pub bytes: [u8; LONGEST_TEXT],
    pub mask: u16,
    /// How many slots after the next look held segments are dropped, if no segment comes until then.
    pub later: u16,
    pub flag: u8,
}

/// All that a display follows from, as plain numbers. Whether a value is whole is not stored: each call that asks
/// finds out.
#[repr(C)]
#[derive(Clone, Copy)]
pub struct StoredDisplay {
    pub pi: u16,
    /// The dwell in slots.
    pub dwell: u16,
    /// The slots until the next look at the ages, at least 1. Nothing is dropped before it, so a slot only counts this
    /// number down.
    pub rest: u16,
    pub text: StoredSegments,
    pub name: StoredSegments,
    pub pair: StoredPair,
    /// Whether RadioText Plus is known: 0 for no and any other number for yes.
    pub is_known: u8,
}

impl StoredDisplay {
    /// Ages the segments by one slot. Drops the pair if no segment of a text is held any more. If it returns false, all
    /// that is shown stays the same.
    pub(crate) fn grow_older(&mut self) -> bool
        ensures programme { self.new.pi ≡ self.old.pi }
        ensures holds { IsStoredDisplay self.old → (m first : ℕ) (heard : List (Option Message))
            → HoldsAt m (newest_slot first heard) first (display_stored self.old) heard
            → HoldsAt m (first + length heard) first (display_stored self.new) heard }
        ensures same { IsFalse result → ShowsAlike (display_stored self.old) (display_stored self.new) }
        ensures good { IsStoredDisplay self.old → IsStoredDisplay self.new }
    {
        self.rest = self.rest.wrapping_sub(1);
        if self.rest > 0 {
            return false;
        }
        self.look()
    }

    /// Does the same in the slot of a look, and finds the slot of the next one.
    // Cold path.
    #[inline(never)]
    fn look(&mut self) -> bool
        ensures programme { self.new.pi ≡ self.old.pi }
        ensures older { IsStoredDisplay (record self.old { rest = 1 })
            → IsOlder (display_stored (record self.old { rest = 1 })) (display_stored self.new) }
        ensures same { IsFalse result → ShowsAlike (display_stored self.old) (display_stored self.new) }
        ensures good { IsStoredDisplay (record self.old { rest = 1 }) → IsStoredDisplay self.new }
    {
        let text = self.text.drop_if_due::<RadioText>();
        let name = self.name.drop_if_due::<TypeName>();
        let rest = self.text.wait(self.dwell).min(self.name.wait(self.dwell));
        self.text.later = self.text.later.saturating_sub(rest);
        self.name.later = self.name.later.saturating_sub(rest);
        self.rest = rest;
        let pair = self.drop_pair();
        text | name | pair
    }

    /// Drops the pair of tags if no segment of a text is held. If it returns false, the pair stays as it is.
    fn drop_pair(&mut self) -> bool
        ensures rest { self.new ≡ record self.old { pair = self.new.pair } }
        ensures held { self.old.text.mask ≢ 0 → self.new.pair ≡ self.old.pair }
        ensures dropped { self.old.text.mask ≡ 0 → pair_stored self.new.pair ≡ None }
        ensures same { IsFalse result → self.new.pair ≡ self.old.pair }
        ensures good { IsStoredPair self.old.pair → IsStoredPair self.new.pair }
    {
        if self.text.is_held() || self.pair.is_there == 0 {
            return false;
        }
        self.pair = StoredPair::none();
        true
    }

    /// Returns the flag of the segments of a text that are held. `None` if none is held.
    pub(crate) fn text_flag(&self) -> Option<bool>
        ensures { IsStoredDisplay self.now → (m t first : ℕ) (heard : List (Option Message))
            → HoldsAt m t first (display_stored self.now) heard
            → result ≡ flag_of (run m t (segments text_fragment first heard)) }
    {
        self.text.held_flag()
    }

    /// Does the same for the segments of a name.
    pub(crate) fn name_flag(&self) -> Option<bool>
        ensures { IsStoredDisplay self.now → (m t first : ℕ) (heard : List (Option Message))
            → HoldsAt m t first (display_stored self.now) heard
            → result ≡ flag_of (run m t (segments name_fragment first heard)) }
    {
        self.name.held_flag()
    }

    /// Returns the slots since the newest segment of a text came, or the dwell if none is held.
    pub fn text_age(&self) -> u16
        ensures { result ≡ (display_stored self.now).text.age }
    {
        self.text.age(self.dwell, self.rest)
    }

    /// Returns the slots since the newest segment of a name came, or the dwell if none is held.
    pub fn name_age(&self) -> u16
        ensures { result ≡ (display_stored self.now).name.age }
    {
        self.name.age(self.dwell, self.rest)
    }

    /// Returns how many slots after the next look the segments are dropped that get a segment now.
    fn later(&self) -> u16
        ensures { result ≡ self.now.dwell - self.now.rest }
    {
        self.dwell.saturating_sub(self.rest)
    }

    /// Handles a message of the programme. If it returns false, all that is shown stays the same.
    #[inline(always)]
    pub(crate) fn hear(&mut self, message: Message) -> bool
        ensures programme { self.new.pi ≡ self.old.pi }
        ensures holds { IsStoredDisplay self.old
            → HearsMore (display_stored self.old) (display_stored self.new) message }
        ensures same { IsFalse result → ShowsAlike (display_stored self.old) (display_stored self.new) }
        ensures good { IsStoredDisplay self.old → IsStoredDisplay self.new }
    {
        match message {
            Message::Text {
                flag,
                address,
                bytes,
            } => self.hear_text(Fragment::new(flag, address, bytes)),
            Message::Name {
                flag,
                address,
                bytes,
            } => {
                let later = self.later();
                self.name
                    .take::<TypeName>(Fragment::new(flag, address, bytes), later)
            }
            Message::Announce { code, aid, .. } => self.hear_announcement(code.get(), aid),
            Message::Tags(pair) => self.hear_tags(pair),
            Message::Other => false,
        }
    }

    /// Takes a text segment. Drops the pair of tags first if the flag changed.
    fn hear_text(&mut self, fragment: Fragment) -> bool
        requires { fragment.address < 16 }
        ensures programme { self.new.pi ≡ self.old.pi }
        ensures holds { IsStoredDisplay self.old
            → HearsMore (display_stored self.old) (display_stored self.new) (text_of fragment) }
        ensures same { IsFalse result → ShowsAlike (display_stored self.old) (display_stored self.new) }
        ensures good { IsStoredDisplay self.old → IsStoredDisplay self.new }
    {
        if !self.text.has_flag(fragment.flag) {
            self.pair = StoredPair::none();
        }
        let later = self.later();
        self.text.take::<RadioText>(fragment, later)
    }

    /// Takes an announcement. One of RadioText Plus makes it known; a contrary one makes it unknown and drops the pair.
    fn hear_announcement(&mut self, code: u8, aid: u16) -> bool
        ensures known { is_set self.new.is_known ≡ or_before (says_of_rtplus code aid) (is_set self.old.is_known) }
        ensures pair { pair_stored self.new.pair
            ≡ unless_contrary (says_of_rtplus code aid) (pair_stored self.old.pair) }
        ensures rest { self.new ≡ record self.old { pair = self.new.pair; is_known = self.new.is_known } }
        ensures same { IsFalse result → ShowsAlike (display_stored self.old) (display_stored self.new) }
        ensures good { IsStoredDisplay self.old → IsStoredDisplay self.new }
    {
        let fits_code = code == RTPLUS_CODE;
        let fits_aid = aid == RTPLUS_AID;
        if fits_code && fits_aid {
            self.is_known = 1;
            return false;
        }
        if fits_code || fits_aid {
            self.is_known = 0;
            self.pair = StoredPair::none();
            return true;
        }
        false
    }

    /// Takes a pair of tags if RadioText Plus is known and segments of a text are held. Ignores it otherwise.
    fn hear_tags(&mut self, pair: TagPair) -> bool
        ensures programme { self.new.pi ≡ self.old.pi }
        ensures holds { IsStoredDisplay self.old
            → HearsMore (display_stored self.old) (display_stored self.new) (Message.Tags pair) }
        ensures same { IsFalse result → ShowsAlike (display_stored self.old) (display_stored self.new) }
        ensures good { IsStoredDisplay self.old → IsStoredDisplay self.new }
    {
        if self.is_known != 0 && self.text.is_held() {
            if self.pair.pair() == Some(pair) {
                return false;
            }
            self.pair = StoredPair::of(Some(pair));
            return true;
        }
        false
    }
}
