//! The spans of a service: what a list of faults judges.
ghost use Rattle.std.specs.Prelude.{◌≡◌, ◌+◌, ◌≤◌, ◌<◌, ◌^◌, ℕ, List, unwrap_or};
ghost use Rattle.rds_audit.specs.Lengths.{gauge_of};
ghost use Rattle.rds_audit.specs.AuditAt.{HoldsSpans, TakesMark};
ghost use Rattle.rds_fields.specs.Stored.{is_set};
ghost use Rattle.rds_audit.specs.AuditState.{aged_in, form_if, judged_ends, opened_in, put_in, repeated_in, tagged_in};
ghost use Rattle.rds_audit.specs.Listing.{none_broken};
ghost use Rattle.rds_audit.specs.Stored.{spans_stored};
ghost use Rattle.rds_audit.specs.Recording.{silent_as};
ghost use Rattle.rds_safety.specs.Marks.{Mark, Sends, Tagged};

use crate::audited::{Audited, PaddedTexts, Texts};
use crate::content::{is_complete_text, is_past};
use crate::stored::{StoredFaults, StoredReigns, StoredSpans};
use crate::{FaultSet, LogStart, TextForm};
use rds_fields::{Distance, TagPair};
use rds_receiver::Fragment;

impl StoredSpans {
    /// Makes the state of a service before the first slot of a log that begins so.
    pub(crate) fn new<S: Audited>(distance: Distance, start: LogStart) -> StoredSpans
        requires { 0 < distance }
        ensures { HoldsSpans S.gauge distance (silent_as start distance) (spans_stored result) }
    {
        StoredSpans {
            count: 0,
            waited: 0,
            apart: 0,
            reigns: StoredReigns::new::<S>(distance, start),
            broken: StoredFaults::none(),
            complete: 0,
            puts: 0,
        }
    }

    /// Makes the state of texts of this form before the first slot of a log that begins so.
    pub(crate) fn of_texts(distance: Distance, start: LogStart, form: TextForm) -> StoredSpans
        requires { 0 < distance }
        ensures { HoldsSpans (gauge_of form) distance (silent_as start distance) (spans_stored result) }
    {
        match form {
            TextForm::Plain => StoredSpans::new::<Texts>(distance, start),
            TextForm::Padded => StoredSpans::new::<PaddedTexts>(distance, start),
        }
    }

    /// Does what [`take`](Self::take) does for texts of the stored form.
    #[inline(always)]
    pub(crate) fn take_text(
        &mut self,
        is_padded: u8,
        distance: u32,
        fragment: Fragment,
    ) -> Option<FaultSet>
        requires { fragment.address < 16 }
        ensures { TakesMark (gauge_of (form_if (is_set is_padded))) distance (Sends fragment) (spans_stored self.old)
            (spans_stored self.new) (unwrap_or result none_broken) }
    {
        if is_padded == 0 {
            self.take::<Texts>(distance, fragment)
        } else {
            self.take::<PaddedTexts>(distance, fragment)
        }
    }

    /// Does what [`take_tags`](Self::take_tags) does for texts of the stored form.
    pub(crate) fn take_text_tags(&mut self, is_padded: u8, distance: u32, pair: TagPair) -> FaultSet
        ensures { TakesMark (gauge_of (form_if (is_set is_padded))) distance (Tagged pair) (spans_stored self.old)
            (spans_stored self.new) result }
    {
        if is_padded == 0 {
            self.take_tags::<Texts>(distance, pair)
        } else {
            self.take_tags::<PaddedTexts>(distance, pair)
        }
    }

    /// Takes a segment that was sent in this slot: it joins the current span, or opens one. Returns the faults that it
    /// adds to the list, or `None` for a segment that the span has already. So most slots compare no faults.
    #[inline(always)]
    pub(crate) fn take<S: Audited>(&mut self, distance: u32, fragment: Fragment) -> Option<FaultSet>
        requires { fragment.address < S.gauge.segments }
        ensures { TakesMark S.gauge distance (Sends fragment) (spans_stored self.old) (spans_stored self.new)
            (unwrap_or result none_broken) }
    {
        if self.reigns.joins(distance, fragment.flag)
            && self.reigns.has(fragment.address, fragment.bytes)
        {
            // what the span has already breaks no further rule
            self.reigns.renew();
            return None;
        }
        Some(self.take_new::<S>(distance, fragment))
    }

    /// Does the same for any segment.
    // Cold path.
    #[inline(never)]
    fn take_new<S: Audited>(&mut self, distance: u32, fragment: Fragment) -> FaultSet
        requires { fragment.address < S.gauge.segments }
        ensures { TakesMark S.gauge distance (Sends fragment) (spans_stored self.old) (spans_stored self.new) result }
    {
        if !self.reigns.joins(distance, fragment.flag) {
            return self.begin::<S>(distance, fragment, false);
        }
        if self
            .reigns
            .is_changed_by::<S>(fragment.address, fragment.bytes)
        {
            return self.begin::<S>(distance, fragment, true);
        }
        let before = self.broken.get();
        self.put::<S>(fragment);
        self.broken.get().not_in(before)
    }

    /// Takes tags that were sent in this slot. Returns the faults that they add to the list.
    pub(crate) fn take_tags<S: Audited>(&mut self, distance: u32, pair: TagPair) -> FaultSet
        ensures { TakesMark S.gauge distance (Tagged pair) (spans_stored self.old) (spans_stored self.new) result }
    {
        let before = self.broken.get();
        self.add_tags(distance, pair);
        self.broken.get().not_in(before)
    }

    /// Ages the spans by one slot.
    pub(crate) fn grow_older(&mut self, distance: u32)
        ensures { distance ≤ 66813 → spans_stored self.new ≡ aged_in distance (spans_stored self.old) }
    {
        self.reigns.grow_older(distance);
    }

    /// Opens a span with this segment. Returns the faults that the span has.
    // Inlined, so that a call takes one frame of stack less.
    #[inline(always)]
    fn begin<S: Audited>(&mut self, distance: u32, fragment: Fragment, is_changed: bool) -> FaultSet
        requires { fragment.address < S.gauge.segments }
        ensures begun { spans_stored self.new ≡ put_in S.gauge fragment
            (opened_in distance S.gauge.lengths is_changed fragment.flag (spans_stored self.old)) }
        ensures faults { result ≡ (spans_stored self.new).broken }
    {
        let complete = u32::from(is_complete_text(&self.reigns.cells));
        self.complete = self.complete.saturating_add(complete);
        self.open::<S>(distance, fragment.flag, is_changed);
        self.put::<S>(fragment);
        self.broken.get()
    }

    /// Opens a span without segments and tags. One that changed counts as having turned the flag. If it comes too
    /// early, it starts right after the span before it.
    fn open<S: Audited>(&mut self, distance: u32, flag: bool, is_changed: bool)
        ensures { spans_stored self.new
            ≡ opened_in distance S.gauge.lengths is_changed flag (spans_stored self.old) }
    {
        let is_turned = is_changed || !self.reigns.has_flag(flag);
        let is_early = is_turned && self.reigns.since_before < distance;
        let past_last = self.reigns.since_last.saturating_sub(1);
        let since_start = if !is_turned {
            self.reigns.since_last.saturating_sub(distance)
        } else if is_early {
            past_last
        } else {
            past_last.min(self.reigns.since_before.saturating_sub(distance))
        };
        self.waited = since_start;
        self.apart = self.reigns.since_before;
        self.reigns.restart(since_start, flag);
        self.reigns.clear::<S>();
        self.count = self.count.saturating_add(1);
        self.broken = StoredFaults {
            changed: u8::from(is_changed),
            early_flag: u8::from(is_early),
            ..StoredFaults::none()
        };
    }

    /// Takes a segment into the current span.
    fn put<S: Audited>(&mut self, fragment: Fragment)
        requires { fragment.address < S.gauge.segments }
        ensures { spans_stored self.new ≡ put_in S.gauge fragment (spans_stored self.old) }
    {
        self.puts = self.puts.wrapping_add(1);
        self.reigns.renew();
        if !self.reigns.put::<S>(fragment.address, fragment.bytes) {
            self.broken.not_one_text = 1;
        }
        self.judge_tags();
    }

    /// Takes tags into the current span, if there is one.
    fn add_tags(&mut self, distance: u32, pair: TagPair)
        ensures { spans_stored self.new ≡ tagged_in distance pair (spans_stored self.old) }
    {
        if !self.reigns.has_lasted(distance) {
            self.broken.early_tag = 1;
        }
        if self.reigns.is_open != 0 {
            self.reigns.reach(pair);
            self.reigns.renew();
            self.judge_tags();
        }
    }

    /// Judges whether each tag of the current span ends in its text.
    fn judge_tags(&mut self)
        ensures { spans_stored self.new ≡ record (spans_stored self.old) {
          broken
              = judged_ends (spans_stored self.old).reigns.content.lengths
              (spans_stored self.old).reigns.content.tags_end (spans_stored self.old).broken;
        } }
    {
        if is_past(self.reigns.lengths(), self.reigns.tags_end) {
            self.broken.tag_outside = 1;
        }
    }
}
