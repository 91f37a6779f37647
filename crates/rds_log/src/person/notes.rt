//! Notes on a log, for a person at a terminal. No contract speaks of them.

use crate::person::fault_notes::{FaultNotes, FaultPlace};
use crate::person::incomplete::IncompleteTexts;
use crate::person::segment_cause::SegmentCause;
use rds_audit::{Account, Audit, AuditFault, FaultSet};
use rds_fields::Message;
use rds_lines::{InputNotes, LogLine};

/// The slot at which an audit stopped (this project's own rule).
#[derive(Clone, Copy, Debug, PartialEq, Eq)]
pub struct NoNote {
    /// The slot that breaks a rule first.
    pub at: FaultPlace,
    /// The rule that it breaks.
    pub fault: AuditFault,
    /// Whether a name broke it. If not, a text or its tags did.
    pub of_name: bool,
    /// The earlier slot that it comes too soon after. For `EarlyFlag`, that is the last slot of the text or name before
    /// the previous one. For `EarlyTag`, it is the first slot in which the text can have started.
    pub earlier: Option<u64>,
    /// For `EarlyTag`, the slot of the first segment of the text.
    pub first: Option<u64>,
    /// For `EarlyTag`, the pause after which the text began anew with the same flag.
    pub paused: Option<Pause>,
    /// M + K, in slots.
    pub spacing: u32,
    /// For `NotOneText`, what is wrong with the segment.
    pub cause: Option<SegmentCause>,
    /// Whether the fault may be harmless. For `NotOneText`, if a text with padding has all segments of the text. For
    /// `EarlyTag`, if both tags are empty. `Changed` and `EarlyFlag` begin a text, so only the segments after this slot
    /// show whether they are: [`FaultCount`](crate::FaultCount) counts these.
    pub is_harmless: bool,
}

/// A pause of M + K slots or more without a text segment or tags (this project's own rule).
#[derive(Clone, Copy, Debug, PartialEq, Eq)]
pub struct Pause {
    /// The first slot of the pause, if it began less than 2 (M + K) slots before the fault.
    pub from: Option<u64>,
    /// The slot after the pause.
    pub until: u64,
}

impl NoNote {
    /// Returns the note on the slot of this line, which breaks this rule first.
    // Cold path.
    #[inline(never)]
    pub(crate) fn of(audit: &Audit, said: LogLine, at: FaultPlace, fault: AuditFault) -> NoNote {
        let sent = said;
        let taken = said;
        let harmless = harmless_in(audit, taken);
        let of_name = is_name(said);
        let account = audit.account(fault, of_name);
        let first = first_of(at.slot, account);
        NoNote {
            at,
            fault,
            of_name,
            earlier: slot_before(at.slot, account.since),
            first,
            paused: pause_of(at.slot, account.paused, first),
            spacing: account.spacing,
            cause: match fault {
                AuditFault::NotOneText => {
                    segment_cause(sent, account.least, account.most, audit.is_padded != 0)
                }
                _ => None,
            },
            is_harmless: harmless.has(fault),
        }
    }
}

/// Returns which faults may be harmless in the slot of this line, which the audit took: a text with padding has all
/// segments of the text, or both tags are empty.
pub(crate) fn harmless_in(audit: &Audit, said: LogLine) -> FaultSet {
    let sent = said;
    FaultSet {
        not_one_text: !is_name(said) && audit.fits_padded(),
        early_tag: has_empty_tags(sent),
        ..FaultSet::none()
    }
}

/// Returns whether a line has a group of two tags without a piece of the text.
fn has_empty_tags(said: LogLine) -> bool {
    let LogLine::Slot(Some(group)) = said else {
        return false;
    };
    match Message::of_blocks(group) {
        Message::Tags(pair) => pair.one().class() == 0 && pair.two().class() == 0,
        Message::Text { .. } | Message::Name { .. } | Message::Announce { .. } | Message::Other => {
            false
        }
    }
}

/// Returns what is wrong with the segment of a line, for a text of these lengths so far, with padding or without.
fn segment_cause(said: LogLine, least: u8, most: u8, is_padded: bool) -> Option<SegmentCause> {
    let LogLine::Slot(Some(group)) = said else {
        return None;
    };
    match Message::of_blocks(group) {
        Message::Text { address, bytes, .. } => {
            SegmentCause::of_text(address.get(), bytes, least, most, is_padded)
        }
        Message::Name { address, bytes, .. } => SegmentCause::of_name(address.get(), bytes),
        Message::Tags(_) | Message::Announce { .. } | Message::Other => None,
    }
}

/// Returns the slot of the first segment of a text with early tags in this slot.
fn first_of(slot: u64, account: Account) -> Option<u64> {
    let waited = account.waited?;
    slot_before(slot, account.since)?.checked_add(u64::from(waited))
}

/// Returns the pause between the text before the current one, which ended so many slots before this one, and the first
/// segment of the current one.
fn pause_of(slot: u64, ended: Option<u32>, first: Option<u64>) -> Option<Pause> {
    let from = slot_before(slot, Some(ended?.saturating_sub(1)));
    Some(Pause {
        from,
        until: first?,
    })
}

/// Returns whether a line has a group of a name.
pub(crate) fn is_name(said: LogLine) -> bool {
    match said {
        LogLine::Slot(Some(group)) => matches!(Message::of_blocks(group), Message::Name { .. }),
        LogLine::Slot(None) | LogLine::Skip => false,
    }
}

/// Returns the slot that many slots before this one.
fn slot_before(slot: u64, age: Option<u32>) -> Option<u64> {
    slot.checked_sub(u64::from(age?))
}

/// Notes on a log (this project's own rule).
#[derive(Drop)]
pub struct LogNotes {
    /// Notes on the log as the input.
    pub input: InputNotes,
    /// The slot at which the audit stopped.
    pub no: Option<NoNote>,
    /// The number of texts that the audit judged.
    pub texts: u64,
    /// The number of them that were complete.
    pub complete: u64,
    /// The texts that came before `decode` met a complete one.
    pub incomplete: Option<IncompleteTexts>,
    /// The number of slots to which no text segment came for M slots, after the first one.
    pub paused: u64,
    /// The number of names.
    pub names: u64,
    /// The number of groups with tags.
    pub tags: u64,
    /// The faults of an audit that lists all of them.
    pub faults: FaultNotes,
}

impl LogNotes {
    /// Returns the notes on a log before its first line.
    pub fn new() -> LogNotes {
        LogNotes {
            input: InputNotes::new(),
            no: None,
            texts: 0,
            complete: 0,
            incomplete: None,
            paused: 0,
            names: 0,
            tags: 0,
            faults: FaultNotes::new(),
        }
    }
}
