//! What a person wants to know of the lines of a log: facts behind the notes on standard error. No contract speaks of
//! them.

pub(crate) mod heard;
pub(crate) mod line_cause;
pub(crate) mod line_form;
pub(crate) mod line_time;
pub(crate) mod log_times;
pub(crate) mod news;
pub(crate) mod read_notes;
