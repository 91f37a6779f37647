//! Which changes of a text or a name are harmless, for a person: a fault that begins a text, after which no receiver can
//! show a mix of it. No contract speaks of it.

use crate::audit_log::Stop;
use rds_audit::{Audit, AuditFault, FaultSet, StoredCell, StoredSpans};

/// The segments of a text or a name, by their addresses.
type Segments = [StoredCell; 16];

/// How many of the faults that begin a text or a name are harmless.
#[derive(Clone, Copy)]
pub(crate) struct Harmless {
    changed: u64,
    early_flag: u64,
}

impl Harmless {
    /// Starts without one.
    fn none() -> Harmless {
        Harmless {
            changed: 0,
            early_flag: 0,
        }
    }

    /// Counts the harmless ones of these faults.
    fn add(&mut self, began: FaultSet) {
        self.changed = self.changed.saturating_add(u64::from(began.changed));
        self.early_flag = self.early_flag.saturating_add(u64::from(began.early_flag));
    }

    /// Returns how many of this fault are harmless. The other faults do not begin a text.
    pub(crate) fn of(self, fault: AuditFault) -> u64 {
        match fault {
            AuditFault::Changed => self.changed,
            AuditFault::EarlyFlag => self.early_flag,
            AuditFault::NotOneText | AuditFault::EarlyTag | AuditFault::TagOutside => 0,
        }
    }
}

/// How the segments of a text differ from others.
#[derive(Clone, Copy)]
struct Difference {
    /// The first address at which both have a segment, with other bytes.
    at: Option<usize>,
    /// Whether there is a second such address.
    has_more: bool,
    /// Whether the text has a segment that the others lack.
    adds: bool,
    /// Whether it lacks a segment of the others.
    lacks: bool,
}

impl Difference {
    /// Compares the segments of a text with others.
    fn of(text: &Segments, others: &Segments) -> Difference {
        let mut found = Difference {
            at: None,
            has_more: false,
            adds: false,
            lacks: false,
        };
        for (place, (new, old)) in text.iter().zip(others).enumerate() {
            match (new.is_sent != 0, old.is_sent != 0) {
                (true, true) if new.bytes != old.bytes => {
                    found.has_more = found.at.is_some();
                    found.at = found.at.or(Some(place));
                }
                (true, false) => found.adds = true,
                (false, true) => found.lacks = true,
                (true, true) | (false, false) => {}
            }
        }
        found
    }
}

/// The texts with one flag of which a receiver may still hold segments: each came less than M + K slots after the one
/// before it.
#[derive(Clone, Copy)]
struct OneFlag {
    /// Their segments. If they differ in one, that of the longest.
    segments: Segments,
    /// The only address at which they differ.
    varies: Option<usize>,
    /// Whether segments of two of them make a text that was not sent.
    can_mix: bool,
    /// The newest slot of their segments and tags.
    last: u64,
}

impl OneFlag {
    /// Starts without a text.
    fn new() -> OneFlag {
        OneFlag {
            segments: [StoredCell::none(); 16],
            varies: None,
            can_mix: false,
            last: 0,
        }
    }

    /// Takes the segments of one more text. Returns whether each text that can be made of all segments was sent: one of
    /// the texts has all segments of the others, or they have the same addresses and differ at one.
    fn takes(&mut self, text: &Segments) -> bool {
        let found = Difference::of(text, &self.segments);
        let is_sent = match found.at {
            None => !(found.adds && (found.lacks || self.varies.is_some())),
            Some(at) => {
                !(found.has_more || found.adds || found.lacks) && self.varies.unwrap_or(at) == at
            }
        };
        if found.adds {
            self.segments = *text;
        }
        self.varies = self.varies.or(found.at);
        self.can_mix = self.can_mix || !is_sent;
        !self.can_mix
    }
}

/// The changes of a service of a log.
#[derive(Clone, Copy)]
struct Changes {
    /// The number of the current text or name, as the audit counts them.
    number: u64,
    /// The number of new segments, as the audit counts them.
    puts: u32,
    flag: bool,
    segments: Segments,
    /// The faults of the slot in which it began.
    began: FaultSet,
    flags: [OneFlag; 2],
    harmless: Harmless,
}

impl Changes {
    /// Starts before the first slot.
    fn new() -> Changes {
        Changes {
            number: 0,
            puts: 0,
            flag: false,
            segments: [StoredCell::none(); 16],
            began: FaultSet::none(),
            flags: [OneFlag::new(); 2],
            harmless: Harmless::none(),
        }
    }

    /// Takes a new segment of the current text or name, of which the audit has this, and the faults of its slot. M + K
    /// slots after a segment no receiver has that any more. Only a text with padding can have two segments of one
    /// address.
    fn take(
        &mut self,
        slot: u64,
        spans: &StoredSpans,
        spacing: u32,
        is_padded: bool,
        found: FaultSet,
    ) {
        self.puts = spans.puts;
        if spans.count != self.number {
            let since_last = spans.reigns.since_before.saturating_sub(1);
            self.end(slot.saturating_sub(u64::from(since_last)));
            self.number = spans.count;
            self.began = found;
            self.begin(slot, spans.reigns.flag != 0, spacing);
        }
        let segments = spans.reigns.cells;
        if is_padded
            && Difference::of(&segments, &self.segments).at.is_some()
            && let Some(texts) = self.flags.get_mut(usize::from(self.flag))
        {
            texts.can_mix = true;
        }
        self.segments = segments;
    }

    /// Ends the current text or name, whose last segment or tags came in this slot.
    fn end(&mut self, last: u64) {
        if let Some(texts) = self.flags.get_mut(usize::from(self.flag)) {
            texts.last = last;
            if texts.takes(&self.segments) {
                self.harmless.add(self.began);
            }
        }
    }

    /// Begins a text or a name. That many slots after the last one with its flag, M + K, no receiver has that any more.
    fn begin(&mut self, slot: u64, flag: bool, spacing: u32) {
        self.flag = flag;
        self.segments = [StoredCell::none(); 16];
        if let Some(texts) = self.flags.get_mut(usize::from(flag))
            && slot.saturating_sub(texts.last) >= u64::from(spacing)
        {
            *texts = OneFlag::new();
        }
    }
}

/// The changes of the texts and names of a log.
#[derive(Clone, Copy)]
pub(crate) struct AllChanges {
    stop: Stop,
    texts: Changes,
    names: Changes,
}

impl AllChanges {
    /// Starts before the first slot of an audit that stops there.
    pub(crate) fn new(stop: Stop) -> AllChanges {
        let changes = Changes::new();
        AllChanges {
            stop,
            texts: changes,
            names: changes,
        }
    }

    /// Takes a slot, in which the audit found these faults. The audit took the slot.
    #[inline(always)]
    pub(crate) fn note(&mut self, slot: u64, audit: &Audit, found: FaultSet) {
        if audit.text.puts != self.texts.puts || audit.name.puts != self.names.puts {
            self.take(slot, audit, found);
        }
    }

    /// Takes a slot with a new segment.
    // Cold path.
    #[inline(never)]
    fn take(&mut self, slot: u64, audit: &Audit, found: FaultSet) {
        if audit.text.puts != self.texts.puts {
            let is_padded = audit.is_padded != 0;
            self.texts
                .take(slot, &audit.text, audit.distance, is_padded, found);
        } else {
            self.names
                .take(slot, &audit.name, audit.distance, false, found);
        }
    }

    /// Ends the log. Returns how many faults of its texts are harmless, and of its names. A log that is not listed to its
    /// end has none: the segments behind its fault decide.
    pub(crate) fn ended(&self) -> (Harmless, Harmless) {
        match self.stop {
            Stop::FirstFault => (Harmless::none(), Harmless::none()),
            Stop::LogEnd => {
                let mut all = *self;
                // no text comes behind the end, so nothing asks for the last slot
                all.texts.end(0);
                all.names.end(0);
                (all.texts.harmless, all.names.harmless)
            }
        }
    }
}
