//! What a person wants to know of a log: the facts behind the notes on standard error. No contract speaks of them.

pub(crate) mod fault_notes;
pub(crate) mod harmless;
pub(crate) mod incomplete;
pub(crate) mod notes;
pub(crate) mod pauses;
pub(crate) mod segment_cause;
