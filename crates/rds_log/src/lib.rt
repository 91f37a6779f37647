//! Logs of sent or received groups. [`decode`] writes the view of a receiver of a log, one line for each part that
//! changed. [`audit`] answers whether the slots of a log pass.
//!
//! rds_lines has the lines of a log, and the loop over them. The slots have views, and `decode` writes the changes of
//! these views (`LogWrites`). The bytes have one verdict, and `audit` answers it (`Audits`). The crate takes no memory.
//!
//! ```text
//! decode(&mut Told::new(reader), &mut Told::new(writer), 0xC201, Dwell::new(128)?)
//! ```
#![tactic(auto)]

mod audit_log;
mod auditor;
mod breaks;
mod decode_log;
mod decoder;
mod filler;
mod laws;
mod pace;
mod person;
mod slots_log;
mod verdict;

pub use audit_log::{Auditing, Stop, audit, audit_with_notes, audit_within};
pub use breaks::Breaks;
pub use decode_log::{Decoding, decode, decode_with_notes, decode_within};
pub use filler::{Filling, Gap, SlotCounts, Times};
pub use laws::{
    bytes_have_one_verdict, bytes_write_one_output, filled_texts_are_logs, what_an_answer_means,
};
pub use person::fault_notes::{FaultCount, FaultCounts, FaultNotes, FaultPlace};
pub use person::incomplete::IncompleteTexts;
pub use person::notes::{LogNotes, NoNote, Pause};
pub use person::segment_cause::SegmentCause;
pub use rds_io::LogFault;
pub use slots_log::{SlotNotes, fill_with_notes};
pub use verdict::fault_name;
