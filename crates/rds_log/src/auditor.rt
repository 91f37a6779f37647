//! The lines of the faults of a log.
ghost use Rattle.std.specs.Prelude.{◌≡◌, ◌≢◌, ◌⊎◌, ◌≤◌, ◌+◌, ◌++◌, ◌↔◌, [], IsTrue, None, false, length, true};
ghost use Rattle.std.proofs.Common.{rules};
ghost use Rattle.rds_audit.specs.Listing.{first_of};
ghost use Rattle.rds_audit.specs.Stored.{fault_of};
ghost use Rattle.rds_io.specs.Told.{traffic};
ghost use Rattle.rds_io.specs.Waits.{Waits};
ghost use Rattle.rds_log.specs.FaultList.{LinesAnswer, LinesGoOn, fault_lines, line_if, lines_for, yes_line};
ghost use Rattle.rds_lines.specs.Outputs.{Pushed};
ghost use Rattle.rds_log.specs.declared.audit_log.Auditing.{Auditing};
ghost use Rattle.rds_log.specs.declared.audit_log.Stop.TheVariants.{FirstFault};
ghost use Rattle.rds_log.specs.declared.auditor.TheConstants.{FAULTS_ROOM};
ghost use Rattle.rds_log.specs.declared.verdict.TheConstants.{ANSWER_ROOM};

use crate::audit_log::{Auditing, Stop};
use crate::person::fault_notes::{FaultNotes, FaultPlace};
use crate::person::harmless::AllChanges;
use crate::person::notes::{LogNotes, NoNote};
use crate::person::pauses::Pauses;
use crate::verdict::{ANSWER_ROOM, push_no, push_yes};
use rds_audit::{Audit, AuditFault, FaultSet};
use rds_block::Blocks;
use rds_fields::TagGroup;
use rds_io::{Lines, TellingWrite, WriteFault};
use rds_lines::{Heard, LogLine, News, OUTPUT_ROOM, Source, TakesLines};

/// The most bytes of the lines of a slot.
const FAULTS_ROOM: usize = 5 * ANSWER_ROOM;

/// Takes the lines of a log for `audit`, with notes for a person.
#[derive(Drop)]
pub(crate) struct Auditor {
    audit: Audit,
    slots: u64,
    stop: Stop,
    /// Whether it stopped at a fault.
    is_done: bool,
    pi: u16,
    rtplus: TagGroup,
    heard: Heard,
    faults: FaultNotes,
    changes: AllChanges,
    pauses: Pauses,
    no: Option<NoNote>,
}

impl TakesLines for Auditor {
    ghost use Rattle.rds_log.specs.Inside.Auditor.{HasAudited, audited_lines, audited_part};

    type How = Auditing;

    ghost ROOM = { FAULTS_ROOM };

    const ROOM: usize = FAULTS_ROOM;

    ghost gives = { LinesGoOn };

    ghost begins = { LinesAnswer };

    ghost took = { HasAudited };

    ghost done = { λ it. it.is_done ≡ true };

    ghost counted = { λ it. it.slots };

    #[inline(always)]
    fn line<W: TellingWrite>(
        &mut self,
        said: LogLine,
        source: &Source,
        output: &mut Lines<OUTPUT_ROOM>,
        _writer: &mut W,
    ) -> Result<bool, WriteFault> {
        match said {
            LogLine::Skip => Ok(true),
            LogLine::Slot(group) => {
                let slot = self.slots;
                let read = self.rtplus.exchange_read(group);
                // Prover: a value is copied by a new name before its second use (PROVER.md, "Workarounds").
                let heard = read;
                let failed = read;
                let came = read;
                self.heard.slot(self.pi, heard);
                self.pauses.take(slot, came);
                let found = self.audit.all_faults(read);
                self.slots += 1;
                // in both branches: so a slot without a fault is asked for faults once
                if found.is_empty() {
                    self.changes.note(slot, &self.audit, found);
                    return Ok(true);
                }
                self.changes.note(slot, &self.audit, found);
                self.fail(slot, found, failed, source, output);
                Ok(!self.is_done)
            }
        }
    }

    fn tell<N: News>(&self, _news: &mut N) {}

    ghost meant = { audited_lines };

    ghost begun = { audited_part };

    ghost fits = { Prim.search rules };
}

impl Auditor {
    ghost use Rattle.rds_log.specs.Inside.Auditor.{HasAudited};

    /// Starts a log.
    pub(crate) fn new(how: Auditing) -> Auditor
        ensures none { result.slots ≡ 0 }
        ensures wants { result.is_done ≡ false }
        ensures audited { HasAudited how result [] [] }
    {
        Auditor {
            audit: Audit::starting(how.pi, how.dwell, how.late, how.start, how.form),
            slots: 0,
            stop: how.stop,
            is_done: false,
            pi: how.pi,
            rtplus: how.rtplus,
            heard: Heard::new(),
            faults: FaultNotes::new(),
            changes: AllChanges::new(how.stop),
            pauses: Pauses::new(how.pi, how.dwell),
            no: None,
        }
    }

    /// Appends the lines of the faults of this slot with this group, and takes a note on them.
    // Cold path. The line of the group is made here, and so not in slots without a fault.
    #[inline(never)]
    fn fail(
        &mut self,
        slot: u64,
        found: FaultSet,
        group: Option<Blocks>,
        source: &Source,
        output: &mut Lines<OUTPUT_ROOM>,
    )
        requires { length output.old + FAULTS_ROOM ≤ OUTPUT_ROOM }
        ensures lines { output.new ≡ output.old ++ lines_for self.old.stop slot found }
        ensures room { length output.new ≤ length output.old + FAULTS_ROOM }
        ensures done { (self.new.is_done ≡ true)
            ↔ ((self.old.is_done ≡ true) ⊎ ((self.old.stop ≡ FirstFault) × (first_of found ≢ None))) }
        ensures kept { self.new
            ≡ record self.old { is_done = self.new.is_done; faults = self.new.faults; no = self.new.no } }
    {
        let place = FaultPlace::of(slot, source);
        let said = LogLine::Slot(group);
        match self.stop {
            Stop::FirstFault => {
                let Some(fault) = found.first() else {
                    return;
                };
                let why = fault;
                push_no(slot, fault, output);
                self.no = Some(NoNote::of(&self.audit, said, place, why));
                self.is_done = true;
            }
            Stop::LogEnd => {
                push_faults(slot, found, output);
                self.faults.count(said, found, &self.audit, place);
            }
        }
    }

    /// Adds to the notes on a log what was noted of its slots.
    pub(crate) fn note(&self, notes: &mut LogNotes) {
        notes.input.slots = self.slots;
        notes.input.heard = self.heard;
        notes.no = self.no;
        notes.texts = self.audit.texts();
        notes.complete = self.audit.complete_texts();
        notes.paused = self.pauses.before(self.slots);
        notes.names = self.audit.names();
        notes.tags = self.audit.tags();
        let (texts, names) = self.changes.ended();
        notes.faults = self.faults;
        notes.faults.count_harmless(texts, names);
    }

    /// Returns whether no slot has a fault so far.
    pub(crate) fn passed(&self) -> bool
        ensures { IsTrue result ↔ (fault_of self.now.audit ≡ None) }
    {
        self.audit.passed()
    }

    /// Writes the answer `yes`.
    #[tactic(auto, using(rds_io::proofs::Waiting::waits_more, crate::proofs::Audited::flushed))]
    pub(crate) fn write_yes<W: TellingWrite>(&self, writer: &mut W) -> Result<(), WriteFault>
        ensures { (start : W) → Waits (traffic W.contents W.failures start writer.old) [] []
            → Pushed (traffic W.contents W.failures start writer.new) [] (yes_line self.now.slots) result }
    {
        let mut output = Lines::<ANSWER_ROOM>::new();
        push_yes(self.slots, &mut output);
        output.write(writer)
    }
}

/// Appends the line of each fault of a slot.
fn push_faults<const N: usize>(slot: u64, faults: FaultSet, lines: &mut Lines<N>)
    requires { length lines.old + FAULTS_ROOM ≤ N }
    ensures lines { lines.new ≡ lines.old ++ fault_lines slot faults }
    ensures room { length lines.new ≤ length lines.old + FAULTS_ROOM }
{
    push_if(faults.changed, slot, AuditFault::Changed, lines);
    push_if(faults.early_flag, slot, AuditFault::EarlyFlag, lines);
    push_if(faults.not_one_text, slot, AuditFault::NotOneText, lines);
    push_if(faults.early_tag, slot, AuditFault::EarlyTag, lines);
    push_if(faults.tag_outside, slot, AuditFault::TagOutside, lines);
}

/// Appends the line of a fault, if the slot has it.
fn push_if<const N: usize>(has: bool, slot: u64, fault: AuditFault, lines: &mut Lines<N>)
    requires { length lines.old + ANSWER_ROOM ≤ N }
    ensures line { lines.new ≡ lines.old ++ line_if has slot fault }
    ensures room { length lines.new ≤ length lines.old + ANSWER_ROOM }
{
    if has {
        push_no(slot, fault, lines);
    }
}
