//! What a person asks of a fault. No contract speaks of it.

use crate::content::is_complete_text;
use crate::{Audit, AuditFault};

/// What a person asks of a fault in the slot that an audit took last (this project's own rule). Slots are counted back
/// from that slot.
#[derive(Clone, Copy)]
pub struct Account {
    /// How many slots ago was the slot that the fault comes too soon after. For `EarlyFlag`, that is the last slot of the
    /// text or name before the previous one. For `EarlyTag`, it is the first slot in which the text can have started.
    pub since: Option<u32>,
    /// For `EarlyTag`, how many slots after that start the first segment of the text came.
    pub waited: Option<u32>,
    /// How many slots ago the text before ended, if the text has its flag and began after a pause of M + K slots.
    pub paused: Option<u32>,
    /// M + K, in slots.
    pub spacing: u32,
    /// The least and the greatest number of bytes that the text or name can have.
    pub least: u8,
    pub most: u8,
}

impl Audit {
    /// Returns what a person asks of this fault of a name, or of a text.
    pub fn account(&self, fault: AuditFault, of_name: bool) -> Account {
        let spans = if of_name { self.name } else { self.text };
        let reigns = spans.reigns;
        // the audit took the slot: its ages are one more than in the slot
        let since_start = reigns.since_start.saturating_sub(1);
        let since_before = reigns.since_before.saturating_sub(1);
        let is_early_tag = fault == AuditFault::EarlyTag && reigns.is_open != 0;
        // a text with the flag of the one before can start M + K slots after it
        let resumed = spans.count > 1 && since_before == since_start.saturating_add(self.distance);
        Account {
            since: match fault {
                AuditFault::EarlyFlag => Some(spans.apart),
                AuditFault::EarlyTag if is_early_tag => Some(since_start),
                _ => None,
            },
            waited: is_early_tag.then_some(spans.waited),
            paused: resumed.then_some(since_before),
            spacing: self.distance,
            least: reigns.least(),
            most: reigns.most(),
        }
    }

    /// Returns whether some text with padding has all segments of the current text, which this audit does not allow: then
    /// receivers show nothing of the mistake.
    pub fn fits_padded(&self) -> bool {
        self.is_padded == 0 && self.text.reigns.fits_padded()
    }

    /// Returns how many pairs of tags were judged so far.
    pub fn tags(&self) -> u64 {
        self.tags
    }

    /// Returns how many texts were complete so far: receivers show no other text. The number stops at 2^32.
    pub fn complete_texts(&self) -> u64 {
        u64::from(self.text.complete) + u64::from(is_complete_text(&self.text.reigns.cells))
    }
}
