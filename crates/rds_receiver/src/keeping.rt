//! For how long a display keeps a text or a name that its receiver does not show any more.
ghost use Rattle.std.specs.Prelude.{◌≡◌, ◌&&◌, ◌<◌, ◌-◌, ◌==◌, [], ℕ, Bool, List, Option, false, if◌then◌else◌, not};
ghost use Rattle.rds_fields.specs.declared.message.Message.{Message};
ghost use Rattle.rds_receiver.specs.Counts.{CountsOf, CountsOn, CountsSlot, ended_of, ends, kept_stored};
ghost use Rattle.rds_receiver.specs.Kept.{GoesOn, IsShowing, Last, Showing, is_recent, last_after, newest_showing};
ghost use Rattle.rds_receiver.specs.ReceiverAt.{WhatItHeard};

use crate::Receiver;

/// The code for a display that shows no value.
const NONE: u8 = 2;

/// What a display counts of its text, or of its name, as plain numbers.
#[repr(C)]
#[derive(Clone, Copy)]
pub struct StoredKept {
    /// For how many more slots the value is kept, the current one included. 0 while the receiver shows it.
    pub left: u16,
    /// The A/B flag of the value that the display shows: 0 or 1. It is 2 if the display shows none.
    pub flag: u8,
}

/// Counts for how long a display keeps a text and a name that its receiver does not show any more. It has no bytes of
/// them: a display has a copy of what it showed. It is plain numbers, so a program may store it. Make a new one with each
/// new receiver.
#[repr(C)]
#[derive(Clone, Copy)]
pub struct Keeping {
    /// For how many slots a text or a name is kept.
    pub keep: u16,
    pub text: StoredKept,
    pub name: StoredKept,
}

/// Which parts a display keeps as it showed them in the slot before: the text with its item bits and tags, and the name.
/// It shows the other parts as the receiver does.
#[derive(Clone, Copy)]
pub struct Kept {
    pub text: bool,
    pub name: bool,
}

/// A display that keeps nothing shows what its receiver shows.
pub const NOTHING_KEPT: Kept = Kept {
    text: false,
    name: false,
};

impl StoredKept {
    /// Starts with no value.
    fn new() -> StoredKept
        ensures { (keep : ℕ) → result ≡ kept_stored keep Option.None }
    {
        StoredKept {
            left: 0,
            flag: NONE,
        }
    }

    /// Ends a slot. `is_shown` says whether the receiver shows a value, and `held` is the flag of the segments that it
    /// holds. Returns whether the display keeps its value.
    #[tactic(auto, using(std::proofs::lemmas::Bool::Decides::nat_tests, crate::proofs::Counting::over, crate::proofs::Counting::ended, crate::proofs::Counting::goes_on,))]
    fn slot(&mut self, keep: u16, is_shown: bool, held: Option<bool>) -> bool
        ensures counts { (last : Option Last) → self.old ≡ kept_stored keep last
            → self.new ≡ kept_stored keep (last_after is_shown held last) }
        ensures keeps { (last : Option Last) → self.old ≡ kept_stored keep last
            → result ≡ (not is_shown && is_recent keep (last_after is_shown held last)) }
    {
        if is_shown {
            self.left = 0;
            self.flag = match held {
                None => NONE,
                Some(flag) => u8::from(flag),
            };
            return false;
        }
        let left = self.next_left(keep);
        if left == 0 || self.is_ended_by(held) {
            *self = StoredKept::new();
            return false;
        }
        self.left = left;
        true
    }

    /// Returns for how many more slots the value is kept after a slot in which the receiver shows none.
    fn next_left(&self, keep: u16) -> u16
        ensures { result ≡ if self.now.left == 0 then keep else self.now.left - 1 }
    {
        if self.left == 0 { keep } else { self.left - 1 }
    }

    /// Returns whether there is no value, or segments with the other flag are held.
    fn is_ended_by(&self, held: Option<bool>) -> bool
        ensures { result ≡ ends held self.now.flag }
    {
        match held {
            None => self.flag == NONE,
            Some(flag) => self.flag != u8::from(flag),
        }
    }

    /// Ends a slot in which the receiver shows what it showed before. Returns whether the display still keeps its value,
    /// or `None` if it kept none.
    fn count(&mut self, keep: u16, held: Option<bool>) -> Option<bool>
        ensures quiet { self.old.left ≡ 0 → (result ≡ Option.None) × (self.new ≡ self.old) }
        ensures counted { 0 < self.old.left → (last : Option Last) → self.old ≡ kept_stored keep last
            → (self.new ≡ kept_stored keep (last_after false held last))
            × (result ≡ Option.Some (is_recent keep (last_after false held last))) }
    {
        if self.left == 0 {
            return None;
        }
        Some(self.slot(keep, false, held))
    }
}

/// Returns what a display still keeps, if a text or a name has ended.
fn ended_of(text: Option<bool>, name: Option<bool>) -> Option<Kept>
    ensures { result ≡ ended_of text name }
{
    if text == Some(false) || name == Some(false) {
        return Some(Kept {
            text: text == Some(true),
            name: name == Some(true),
        });
    }
    None
}

impl Keeping {
    /// Starts before the first slot of a receiver. `keep` is in slots. With 0 nothing is kept.
    pub fn new(keep: u16) -> Keeping
        ensures keep { result.keep ≡ keep }
        ensures starts { CountsOf result [] }
    {
        Keeping {
            keep,
            text: StoredKept::new(),
            name: StoredKept::new(),
        }
    }

    /// Ends a slot, after the receiver's. `is_changed` is what the receiver's slot returned. Returns which parts the
    /// display keeps, or `None` if nothing changes that the display shows.
    #[inline(always)]
    pub fn slot(&mut self, receiver: &Receiver, is_changed: bool) -> Option<Kept>
        ensures keep { self.new.keep ≡ self.old.keep }
        ensures same { result ≡ Option.None → is_changed ≡ false }
        ensures counts { CountsSlot receiver.now self.old self.new is_changed result }
    {
        if is_changed {
            return Some(self.look(receiver));
        }
        if self.text.left == 0 && self.name.left == 0 {
            return None;
        }
        self.count(receiver)
    }

    /// Does the same in a slot in which the receiver's view may have changed.
    #[inline(never)]
    fn look(&mut self, receiver: &Receiver) -> Kept
        ensures keep { self.new.keep ≡ self.old.keep }
        ensures counts { WhatItHeard receiver.now (λ m first heard. (now : Showing) (before : List Showing)
            → IsShowing m first heard now
            → CountsOf self.old before → CountsOn self.old self.new (Option.Some result) now before) }
    {
        let shows_text = receiver.text().is_some();
        let shows_name = receiver.name().is_some();
        let text = self.text.slot(self.keep, shows_text, receiver.text_flag());
        let name = self.name.slot(self.keep, shows_name, receiver.name_flag());
        Kept { text, name }
    }

    /// Does the same in a slot in which the view did not change, and a text or a name is being kept.
    #[inline(never)]
    fn count(&mut self, receiver: &Receiver) -> Option<Kept>
        ensures keep { self.new.keep ≡ self.old.keep }
        ensures counts { WhatItHeard receiver.now (λ m first heard. (now : Showing) (before : List Showing)
            → IsShowing m first heard now → GoesOn (newest_showing before) now
            → CountsOf self.old before → CountsOn self.old self.new result now before) }
    {
        let text = self.text.count(self.keep, receiver.text_flag());
        let name = self.name.count(self.keep, receiver.name_flag());
        ended_of(text, name)
    }
}
