//! How an audit takes a slot, and what it says of the log.
ghost use Rattle.std.specs.Prelude.{◌≡◌, ◌+◌, ◌<◌, ◌↔◌, ◌⊎◌, ℕ, true, false, List, Option, None, Some, IsTrue};
ghost use Rattle.std.specs.Prelude.{unwrap_or};
ghost use Rattle.rds_block.specs.declared.group.Group.{Group};
ghost use Rattle.rds_fields.specs.declared.message.Message.{Message};
ghost use Rattle.rds_receiver.specs.Receipts.{heard_in, heard_of};
ghost use Rattle.rds_audit.specs.declared.audit.AuditFault.{AuditFault};
ghost use Rattle.rds_audit.specs.declared.log_start.LogStart.TheVariants as LogStart;
ghost use Rattle.rds_audit.specs.declared.text_form.TextForm.TheVariants as TextForm;
ghost use Rattle.rds_audit.specs.AuditLaws.{IsSafeLog, IsSafeRecording};
ghost use Rattle.rds_audit.specs.AuditAt.{AuditAt, AuditTakesSlot, EndsSlot, KeepsLog, ListsMessage};
ghost use Rattle.rds_audit.specs.AuditAt.{TakesAll, WhereTheAuditStands};
ghost use Rattle.rds_audit.specs.Dense.{HasPlans};
ghost use Rattle.rds_audit.specs.Listing.{none_broken};
ghost use Rattle.rds_audit.specs.FlagLaws.{NamesAreSafeByFlag, TextsAreSafeByFlag};
ghost use Rattle.rds_audit.specs.Reigns.{AlternateFlags, reigns};
ghost use Rattle.rds_audit.specs.Rules.{LogPasses};
ghost use Rattle.rds_audit.specs.Stored.{fault_of, form_of, spans_stored, start_of};
ghost use Rattle.rds_safety.specs.Marks.{marks, name_mark, text_mark};

use crate::audited::Names;
use crate::{
    Audit, AuditFault, FaultSet, passes_by_plans, the_list_judges_the_reigns,
    what_passes_as_a_recording_is_safe, what_passes_is_safe, what_passes_is_safe_by_the_flag,
};
use rds_block::{Blocks, Group};
use rds_fields::Message;
use rds_receiver::{Fragment, heard_blocks};

impl Audit {
    /// Takes the next slot: the group that was sent in it, or nothing. A group of another programme counts as nothing.
    ///
    /// # Errors
    ///
    /// The fault, if the slot breaks a rule. After a fault, each call returns that fault again and changes nothing.
    pub fn slot(&mut self, group: Option<Group>) -> Result<(), AuditFault>
        ensures { AuditTakesSlot self.old self.new group result }
    {
        self.slot_blocks(Blocks::of_slot(group))
    }

    /// Does the same as [`slot`](Self::slot) for a group as its blocks.
    #[inline(always)]
    pub fn slot_blocks(&mut self, group: Option<Blocks>) -> Result<(), AuditFault>
        ensures { AuditTakesSlot self.old self.new group result }
    {
        if let Some(known) = AuditFault::of_code(self.fault) {
            return Err(known);
        }
        match self.all_faults(group).first() {
            None => Ok(()),
            Some(fault) => Err(fault),
        }
    }

    /// Takes the next slot, whatever the faults before it. Returns the faults that the slot adds to the list of all
    /// faults of the log: for each text or name each fault once, in the first slot in which it breaks the rule. Other
    /// bytes at an address of a text begin a new text.
    #[inline(always)]
    pub fn all_faults(&mut self, group: Option<Blocks>) -> FaultSet
        ensures { TakesAll self.old self.new group result }
    {
        let Some(found) = self.hear_group(group) else {
            self.end_slot();
            return FaultSet::none();
        };
        self.end_new(found.first());
        found
    }

    /// Returns whether the log passes so far. A log that passes is safe for each receiver of dwell M whose groups come
    /// at most K slots late. The log of a running station is safe as it is: its receivers may hear the tags before its
    /// first text segment.
    pub fn passed(&self) -> bool
        ensures fault { IsTrue result ↔ (fault_of self.now ≡ None) }
        ensures passes { WhereTheAuditStands self.now (λ d heard.
            IsTrue result ↔ LogPasses (form_of self.now) d heard) }
        ensures plans { WhereTheAuditStands self.now (λ d heard.
            IsTrue result ↔ HasPlans (form_of self.now) d heard) }
        ensures safe { WhereTheAuditStands self.now (λ d heard. (m k : ℕ) → 0 < m → m + k ≡ d
            → IsTrue result → IsSafeLog (form_of self.now) m k heard) }
        ensures recording { (pi m k : ℕ) (log : List (Option Group)) → AuditAt pi (m + k) self.now log
            → start_of self.now ≡ LogStart.Running → 0 < m → IsTrue result
            → IsSafeRecording (form_of self.now) m k (heard_of pi log) }
    {
        // Prover: calls of laws, which give the clauses `plans`, `safe` and `recording` (PROVER.md, "Idioms").
        passes_by_plans();
        what_passes_is_safe();
        what_passes_as_a_recording_is_safe();
        self.fault == 0
    }

    /// Returns whether the log passes so far and turned the A/B flag with each new text. A receiver of such a log that
    /// has no dwell, and heard a segment of each text, shows no mix.
    pub fn texts_turn_the_flag(&self) -> bool
        ensures turns { WhereTheAuditStands self.now (λ d heard. IsTrue result
            ↔ (LogPasses (form_of self.now) d heard × AlternateFlags (reigns d (marks text_mark heard)))) }
        ensures safe { WhereTheAuditStands self.now (λ d heard. form_of self.now ≡ TextForm.Plain → IsTrue result
            → TextsAreSafeByFlag d heard) }
    {
        // Prover: calls of laws (PROVER.md, "Idioms").
        the_list_judges_the_reigns();
        what_passes_is_safe_by_the_flag();
        self.passed() && self.text.reigns.turns != 0
    }

    /// Returns whether the log passes so far and turned the A/B flag with each new name. A receiver of such a log that
    /// has no dwell, and heard a segment of each name, shows no mix.
    pub fn names_turn_the_flag(&self) -> bool
        ensures turns { WhereTheAuditStands self.now (λ d heard. IsTrue result
            ↔ (LogPasses (form_of self.now) d heard × AlternateFlags (reigns d (marks name_mark heard)))) }
        ensures safe { WhereTheAuditStands self.now (λ d heard. form_of self.now ≡ TextForm.Plain → IsTrue result
            → NamesAreSafeByFlag d heard) }
    {
        // Prover: calls of laws (PROVER.md, "Idioms").
        the_list_judges_the_reigns();
        what_passes_is_safe_by_the_flag();
        self.passed() && self.name.reigns.turns != 0
    }

    /// Takes the group of this slot, if it is one of the programme. Returns the faults that it adds to the list, or
    /// `None` if it can add none. Most groups can add none.
    #[inline(always)]
    #[tactic(auto, using(crate::proofs::ListingSteps::nothing_listed, crate::proofs::SpanSteps::nothing_counts))]
    fn hear_group(&mut self, group: Option<Blocks>) -> Option<FaultSet>
        ensures keeps { KeepsLog self.old self.new }
        ensures fault { fault_of self.new ≡ fault_of self.old }
        ensures lists { ListsMessage self.old self.new (heard_in self.old.pi group) (unwrap_or result none_broken) }
    {
        match heard_blocks(self.pi, group) {
            Some(message) => self.hear(message),
            None => None,
        }
    }

    /// Takes a message of the programme that was sent in this slot. Tags before the first text segment of a running
    /// station are not judged: their text may have been sent before the log.
    #[inline(always)]
    fn hear(&mut self, message: Message) -> Option<FaultSet>
        ensures keeps { KeepsLog self.old self.new }
        ensures fault { fault_of self.new ≡ fault_of self.old }
        ensures lists { ListsMessage self.old self.new (Some message) (unwrap_or result none_broken) }
    {
        let distance = self.distance;
        match message {
            Message::Text {
                flag,
                address,
                bytes,
            } => self.text.take_text(
                self.is_padded,
                distance,
                Fragment::new(flag, address, bytes),
            ),
            Message::Name {
                flag,
                address,
                bytes,
            } => self
                .name
                .take::<Names>(distance, Fragment::new(flag, address, bytes)),
            Message::Tags(pair) => {
                if self.awaits_text() {
                    None
                } else {
                    self.tags = self.tags.saturating_add(1);
                    Some(self.text.take_text_tags(self.is_padded, distance, pair))
                }
            }
            Message::Announce { .. } | Message::Other => None,
        }
    }

    /// Returns whether the station was on air before the log began, and no text segment came yet.
    fn awaits_text(&self) -> bool
        ensures early { result ≡ true → (start_of self.now ≡ LogStart.Running)
            × ((spans_stored self.now.text).reigns.ages.is_open ≡ false) }
        ensures begun { result ≡ false → (start_of self.now ≡ LogStart.Complete)
            ⊎ ((spans_stored self.now.text).reigns.ages.is_open ≡ true) }
    {
        self.is_running != 0 && self.text.reigns.is_open == 0
    }

    /// Ends a slot that adds this fault first, if it adds one. The fault is kept if there was none before.
    // Cold path.
    #[inline(never)]
    fn end_new(&mut self, fault: Option<AuditFault>)
        ensures keeps { KeepsLog self.old self.new }
        ensures first { fault_of self.old ≡ None → fault_of self.new ≡ fault }
        ensures again { (known : AuditFault) → fault_of self.old ≡ Some known → fault_of self.new ≡ Some known }
        ensures holds { EndsSlot self.old self.new }
    {
        if self.fault == 0 {
            self.fault = AuditFault::code(fault);
        }
        self.end_slot();
    }

    /// Ends the slot.
    fn end_slot(&mut self)
        ensures keeps { KeepsLog self.old self.new }
        ensures fault { fault_of self.new ≡ fault_of self.old }
        ensures holds { EndsSlot self.old self.new }
    {
        let distance = self.distance;
        self.text.grow_older(distance);
        self.name.grow_older(distance);
    }
}
