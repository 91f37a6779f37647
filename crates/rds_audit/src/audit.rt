//! The audit: it takes a log slot by slot, and finds the rule that the log breaks first, or all faults of the log.
ghost use Rattle.std.specs.Prelude.{◌≡◌, ◌+◌, ◌-◌, ◌^◌, [], None, length, min};
ghost use Rattle.rds_audit.specs.declared.log_start.LogStart.TheVariants as LogStart;
ghost use Rattle.rds_audit.specs.declared.text_form.TextForm.TheVariants as TextForm;
ghost use Rattle.rds_audit.specs.AuditAt.{AuditAt, FollowsLog, WhereItFollows};
ghost use Rattle.rds_audit.specs.Lengths.{gauge_of, name_gauge};
ghost use Rattle.rds_audit.specs.Listing.{spans};
ghost use Rattle.rds_audit.specs.Stored.{fault_of, form_of, start_of};
ghost use Rattle.rds_safety.specs.Marks.{marks, name_mark, text_mark};

use crate::audited::Names;
use crate::stored::StoredSpans;
use crate::{LogStart, TextForm};
use rds_fields::{Distance, Dwell, Late};
use thiserror::Error;

/// The rule that a log breaks first (this project's own rules).
#[derive(Clone, Copy, Debug, PartialEq, Eq, Error)]
pub enum AuditFault {
    /// An address of the text or name was sent before with other bytes.
    #[error("an address was sent with other bytes")]
    Changed,
    /// No text, or no name, has this segment together with those sent before it.
    #[error("the segments are not of one text")]
    NotOneText,
    /// A text or name reused the A/B flag less than M + K slots after the last group of the one before the previous
    /// one.
    #[error("the flag changed too early")]
    EarlyFlag,
    /// Tags came before any text, or less than M + K slots after the first slot in which their text can have started.
    #[error("tags came too early")]
    EarlyTag,
    /// A tag ends past each text that has the segments sent.
    #[error("a tag ends past its text")]
    TagOutside,
}

/// Audits a log: the groups of a station, slot by slot. A log passes exactly if it has plans of texts and of names that
/// are lawful and dense, with a spacing of M + K slots.
///
/// It holds ages that stop at a limit, and no slot numbers, so a log may have any number of slots. `AuditAt`
/// relates an audit to its log. A new audit stands at the empty log, and each `slot` adds its slot to the log. So does
/// each `all_faults`, which goes on after a fault: then the audit follows the log (`FollowsLog`).
///
/// It is plain numbers, so a program may store it. Contracts describe its answers only if its numbers come from a log.
#[repr(C)]
#[derive(Clone, Copy)]
pub struct Audit {
    /// The number of pairs of tags that were judged so far. It stops at 2^64 - 1.
    pub tags: u64,
    pub text: StoredSpans,
    pub name: StoredSpans,
    /// The spacing d in slots: the dwell plus the lateness.
    pub distance: u32,
    pub pi: u16,
    /// The number of the first fault that was found, 0 if there is none.
    pub fault: u8,
    /// Whether the station was on air before the log began.
    pub is_running: u8,
    /// Whether texts may have padding.
    pub is_padded: u8,
}

impl Audit {
    /// Makes the audit of a complete log of this programme, before the first slot, for receivers of this dwell whose
    /// groups come at most so many slots late.
    pub fn new(pi: u16, dwell: Dwell, late: Late) -> Audit
        ensures stands { AuditAt pi (dwell + late) result [] }
        ensures follows { FollowsLog pi (dwell + late) result [] }
        ensures passed { fault_of result ≡ None }
        ensures start { start_of result ≡ LogStart.Complete }
        ensures form { form_of result ≡ TextForm.Plain }
    {
        Audit::starting(pi, dwell, late, LogStart::Complete, TextForm::Plain)
    }

    /// Does the same as [`new`](Self::new) for a log that begins so, and whose texts have this form.
    pub fn starting(pi: u16, dwell: Dwell, late: Late, start: LogStart, form: TextForm) -> Audit
        ensures stands { AuditAt pi (dwell + late) result [] }
        ensures follows { FollowsLog pi (dwell + late) result [] }
        ensures passed { fault_of result ≡ None }
        ensures start { start_of result ≡ start }
        ensures form { form_of result ≡ form }
    {
        let distance = Distance::new(dwell, late);
        Audit {
            tags: 0,
            text: StoredSpans::of_texts(distance, start, form),
            name: StoredSpans::new::<Names>(distance, start),
            distance: distance.get(),
            pi,
            fault: AuditFault::code(None),
            is_running: start.stored(),
            is_padded: form.stored(),
        }
    }

    /// Returns how many texts the log has so far. A text that changed its bytes without the flag counts as two. The
    /// number stops at 2^64 - 1.
    pub fn texts(&self) -> u64
        ensures { WhereItFollows self.now (λ d heard. result
            ≡ min (length (spans (gauge_of (form_of self.now)) d (marks text_mark heard))) (2 ^ 64 - 1)) }
    {
        self.text.count
    }

    /// Returns how many names the log has so far, as for texts.
    pub fn names(&self) -> u64
        ensures { WhereItFollows self.now (λ d heard. result
            ≡ min (length (spans name_gauge d (marks name_mark heard))) (2 ^ 64 - 1)) }
    {
        self.name.count
    }
}
