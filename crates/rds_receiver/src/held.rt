//! The held segments of one service, with flag and age.
ghost use Rattle.std.specs.Prelude.{◌≡◌, ◌≢◌, ◌<◌, ◌↔◌, ◌⊎◌, None, Some, IsFalse, IsTrue, option_copied};
ghost use Rattle.std.specs.FinMap.{empty, insert};
ghost use Rattle.rds_fields.specs.Stored.{is_set};
ghost use Rattle.rds_assembly.specs.Held.{held_cells};
ghost use Rattle.rds_receiver.specs.Shown.{IsShown};
ghost use Rattle.rds_receiver.specs.Holds.{MakeAlike};
ghost use Rattle.rds_receiver.specs.Stored.{age_stored};

use crate::Fragment;
use crate::display::StoredSegments;
use rds_assembly::{LONGEST_TEXT, Service, has_segment, hold, whole};

impl StoredSegments {
    /// Makes a `StoredSegments` without segments.
    #[tactic(auto, using(rds_assembly::proofs::HeldLemmas::nothing_held))]
    pub(crate) fn none() -> StoredSegments
        ensures cells { held_cells result.mask result.bytes ≡ empty }
        ensures mask { result.mask ≡ 0 }
    {
        StoredSegments {
            bytes: [0; LONGEST_TEXT],
            mask: 0,
            later: 0,
            flag: 0,
        }
    }

    /// Drops the segments if they are due in the slot of a look. Returns whether a whole value was dropped.
    #[tactic(auto, using(std::proofs::lemmas::Bool::Decides::nat_tests, rds_assembly::proofs::HeldLemmas::nothing_held, crate::proofs::Shows::nothing_alike))]
    pub(crate) fn drop_if_due<S: Service>(&mut self) -> bool
        ensures later { 0 < self.old.later → self.new ≡ self.old }
        ensures due { self.old.later ≡ 0 → self.new ≡ record self.old { mask = 0 } }
        ensures flag { self.new.flag ≡ self.old.flag }
        ensures same { IsFalse result
            → MakeAlike S.is_whole (held_cells self.old.mask self.old.bytes) (held_cells self.new.mask self.new.bytes) }
    {
        if self.later > 0 {
            return false;
        }
        let was_whole = self.is_whole::<S>();
        self.mask = 0;
        was_whole
    }

    /// Takes a segment. Segments with the other flag are dropped first. Returns false if exactly this segment was held,
    /// or if no value was whole before and none is now.
    /// `later` says how many slots after the next look the segments are dropped.
    pub(crate) fn take<S: Service>(&mut self, fragment: Fragment, later: u16) -> bool
        requires { fragment.address < 16 }
        ensures same { fragment.flag ≡ is_set self.old.flag → held_cells self.new.mask self.new.bytes
            ≡ insert (held_cells self.old.mask self.old.bytes) fragment.address fragment.bytes }
        ensures other { fragment.flag ≢ is_set self.old.flag
            → held_cells self.new.mask self.new.bytes ≡ insert empty fragment.address fragment.bytes }
        ensures flag { is_set self.new.flag ≡ fragment.flag }
        ensures later { self.new.later ≡ later }
        ensures kept { IsFalse result
            → MakeAlike S.is_whole (held_cells self.old.mask self.old.bytes) (held_cells self.new.mask self.new.bytes) }
        ensures one_flag { IsFalse result
            → (fragment.flag ≡ is_set self.old.flag)
            ⊎ IsShown S.is_whole (held_cells self.old.mask self.old.bytes) None }
    {
        self.later = later;
        if self.has_flag(fragment.flag)
            && has_segment(&self.bytes, self.mask, fragment.address, fragment.bytes)
        {
            return false;
        }
        self.add::<S>(fragment)
    }

    /// Takes a segment that may not be held yet.
    // Cold path.
    #[inline(never)]
    #[tactic(auto, using(std::proofs::lemmas::Bool::Decides::nat_tests, rds_assembly::proofs::HeldLemmas::nothing_held))]
    fn add<S: Service>(&mut self, fragment: Fragment) -> bool
        requires { fragment.address < 16 }
        ensures same { fragment.flag ≡ is_set self.old.flag → held_cells self.new.mask self.new.bytes
            ≡ insert (held_cells self.old.mask self.old.bytes) fragment.address fragment.bytes }
        ensures other { fragment.flag ≢ is_set self.old.flag
            → held_cells self.new.mask self.new.bytes ≡ insert empty fragment.address fragment.bytes }
        ensures flag { is_set self.new.flag ≡ fragment.flag }
        ensures later { self.new.later ≡ self.old.later }
        ensures before { IsFalse result → IsShown S.is_whole (held_cells self.old.mask self.old.bytes) None }
        ensures now { IsFalse result → IsShown S.is_whole (held_cells self.new.mask self.new.bytes) None }
    {
        let was_whole = self.is_whole::<S>();
        let mask = if self.has_flag(fragment.flag) {
            self.mask
        } else {
            0
        };
        self.mask = hold(&mut self.bytes, mask, fragment.address, fragment.bytes);
        self.flag = u8::from(fragment.flag);
        was_whole || self.is_whole::<S>()
    }

    /// Returns the flag of the segments held. `None` if none is held.
    pub(crate) fn held_flag(&self) -> Option<bool>
        ensures held { self.now.mask ≢ 0 → result ≡ Some (is_set self.now.flag) }
        ensures none { self.now.mask ≡ 0 → result ≡ None }
    {
        if self.is_held() {
            Some(self.flag != 0)
        } else {
            None
        }
    }

    /// Returns whether segments are held.
    pub(crate) fn is_held(&self) -> bool
        ensures { IsTrue result ↔ (self.now.mask ≢ 0) }
    {
        self.mask != 0
    }

    /// Returns how many slots the next look may wait. The dwell is in slots.
    pub(crate) fn wait(&self, dwell: u16) -> u16
        ensures held { self.now.mask ≢ 0 → result ≡ self.now.later }
        ensures none { self.now.mask ≡ 0 → result ≡ dwell }
    {
        if self.is_held() { self.later } else { dwell }
    }

    /// Returns the age: the slots since the newest segment came, or the dwell if no segment is held. `rest` is the
    /// number of slots until the next look.
    pub(crate) fn age(&self, dwell: u16, rest: u16) -> u16
        ensures { result ≡ age_stored dwell rest self.now }
    {
        if self.is_held() {
            dwell.saturating_sub(rest).saturating_sub(self.later)
        } else {
            dwell
        }
    }

    /// Returns whether the flag is this one.
    pub(crate) fn has_flag(&self, flag: bool) -> bool
        ensures { IsTrue result ↔ (is_set self.now.flag ≡ flag) }
    {
        (self.flag != 0) == flag
    }

    /// Returns whether the segments make a value whole.
    fn is_whole<S: Service>(&self) -> bool
        ensures { IsFalse result → IsShown S.is_whole (held_cells self.now.mask self.now.bytes) None }
    {
        self.whole::<S>().is_some()
    }

    /// Returns the value that the segments make whole, borrowed from them.
    pub(crate) fn whole<S: Service>(&self) -> Option<&[u8]>
        ensures { IsShown S.is_whole (held_cells self.now.mask self.now.bytes) (option_copied result) }
    {
        whole::<S>(&self.bytes, self.mask)
    }
}
