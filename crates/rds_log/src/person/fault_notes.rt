//! How often each fault of a log came, for a person. No contract speaks of it.

use crate::person::harmless::Harmless;
use crate::person::notes::{harmless_in, is_name};
use rds_audit::{Audit, AuditFault, FAULTS, FaultSet};
use rds_lines::{LineTime, LogLine, Source};

/// Where a fault stands in a log (this project's own rule).
#[derive(Clone, Copy, Debug, PartialEq, Eq)]
pub struct FaultPlace {
    /// The slot, counted from 0.
    pub slot: u64,
    /// The line of this slot, counted from 1.
    pub line: u64,
    /// The time in this line.
    pub time: LineTime,
}

/// How often a fault came, and where it came first and last (this project's own rule).
#[derive(Clone, Copy)]
pub struct FaultCount {
    pub fault: AuditFault,
    pub count: u64,
    /// How many of them are harmless: receivers show what they would show without the fault. For `Changed` and
    /// `EarlyFlag`, no receiver can show a mix: the texts with this flag are one text, or they differ in one segment.
    /// [`NoNote`](crate::NoNote) has the others.
    pub harmless: u64,
    pub first: FaultPlace,
    pub last: FaultPlace,
}

/// The faults of the texts of a log, or of its names, in the order of a list (this project's own rule).
#[derive(Clone, Copy)]
pub struct FaultCounts {
    pub counts: [Option<FaultCount>; 5],
}

/// The faults of a log (this project's own rule).
#[derive(Clone, Copy)]
pub struct FaultNotes {
    /// The number of slots with a fault.
    pub slots: u64,
    /// Those of tags before the first text.
    pub before: FaultCounts,
    /// Those of its texts.
    pub texts: FaultCounts,
    /// Those of its names.
    pub names: FaultCounts,
}

impl FaultNotes {
    /// Starts before the first fault.
    pub(crate) fn new() -> FaultNotes {
        FaultNotes {
            slots: 0,
            before: FaultCounts::new(),
            texts: FaultCounts::new(),
            names: FaultCounts::new(),
        }
    }

    /// Counts the harmless ones of the faults that begin a text or a name. The log ended.
    pub(crate) fn count_harmless(&mut self, texts: Harmless, names: Harmless) {
        self.texts.count_harmless(texts);
        self.names.count_harmless(names);
    }

    /// Counts the faults of a slot, whose line says this. The audit took the slot.
    pub(crate) fn count(
        &mut self,
        said: LogLine,
        found: FaultSet,
        audit: &Audit,
        place: FaultPlace,
    ) {
        let sent = said;
        let harmless = harmless_in(audit, sent);
        self.slots = self.slots.saturating_add(1);
        if is_name(said) {
            self.names.add(found, harmless, place);
        } else if audit.texts() == 0 {
            self.before.add(found, harmless, place);
        } else {
            self.texts.add(found, harmless, place);
        }
    }
}

impl FaultPlace {
    /// Returns the place of this slot, whose line the source read last.
    pub(crate) fn of(slot: u64, source: &Source) -> FaultPlace {
        FaultPlace {
            slot,
            line: source.lines(),
            time: LineTime::of(source.start()),
        }
    }
}

impl FaultCounts {
    /// Starts before the first fault.
    pub(crate) fn new() -> FaultCounts {
        FaultCounts { counts: [None; 5] }
    }

    /// Counts the harmless ones of the faults that begin a text or a name.
    fn count_harmless(&mut self, harmless: Harmless) {
        for count in self.counts.iter_mut() {
            if let Some(count) = count {
                count.harmless = count.harmless.saturating_add(harmless.of(count.fault));
            }
        }
    }

    /// Counts the faults of a slot, and which of them are harmless by themselves.
    fn add(&mut self, found: FaultSet, harmless: FaultSet, place: FaultPlace) {
        for (count, fault) in self.counts.iter_mut().zip(FAULTS) {
            if found.has(fault) {
                *count = Some(one_more(*count, fault, harmless.has(fault), place));
            }
        }
    }
}

/// Returns the count with one more fault, which is harmless or not.
fn one_more(
    count: Option<FaultCount>,
    fault: AuditFault,
    is_harmless: bool,
    place: FaultPlace,
) -> FaultCount {
    let before = count.unwrap_or(FaultCount {
        fault,
        count: 0,
        harmless: 0,
        first: place,
        last: place,
    });
    FaultCount {
        count: before.count.saturating_add(1),
        harmless: before.harmless.saturating_add(u64::from(is_harmless)),
        last: place,
        ..before
    }
}
