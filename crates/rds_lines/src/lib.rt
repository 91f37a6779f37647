//! The lines of a log of sent or received groups, and the loop over them.
//!
//! The model of a log is the list of its lines, whatever the reads that they come in. A line is a slot, or it is
//! skipped (`LineSays`). One loop ([`run`]) gives the lines of a log to an engine that writes while it reads
//! ([`TakesLines`]). [`gather`] keeps all slots of a log in memory. Nothing else takes memory.
#![tactic(auto)]

mod cutter;
mod gather_log;
mod line_stamp;
mod log_line;
mod person;
mod run_log;
mod source;

pub use cutter::line_end;
pub use gather_log::gather;
pub use line_stamp::{TIME, comment_of, stamp_of};
pub use log_line::{DECIDING, LogLine};
pub use person::heard::{Announced, GroupCounts, Heard};
pub use person::line_cause::LineCause;
pub use person::line_time::LineTime;
pub use person::log_times::{Lack, LogTimes};
pub use person::news::{BreakPlace, News, NoNews};
pub use person::read_notes::{BadStart, InputNotes, ReadNotes};
pub use run_log::{MOST_READS, OUTPUT_ROOM, TakesLines, run};
pub use source::Source;
