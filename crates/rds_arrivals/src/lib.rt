//! The slots that a log of received groups lacks, by their times of arrival.
//!
//! Many receivers print only the groups that they received, each with a time. `lost_between` counts the slots that were
//! lost between two times. A log with a line for each of them (`filled`) is heard by a clock that counts no slot too
//! few, if the delay of the groups varies by less than a slot less the grain. So the laws of rds_safety hold for it.
//!
//! ```text
//! lost_between(7_000_000, 15_750_000, Grain::new(20_000)?) == Ok(99)
//! ```
#![tactic(auto)]

mod calendar;
mod grain;
mod last_minute;
mod laws;
mod lost;
mod stamp;
mod stretch;

pub use grain::Grain;
pub use last_minute::LastMinute;
pub use laws::{filled_logs_are_own_clocks, lost_slots_are_counted};
pub use lost::{Break, lost_between, slots_in, time_of};
pub use stamp::{Stamp, stamp_after, stamp_in};
pub use stretch::Stretch;
