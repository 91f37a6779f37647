//! The output lines of a receiver's view, one for each part that changed.
#![tactic(auto)]

mod change;
mod kept;
mod parts;
mod shown;

pub use change::{LINE_ROOM, Prefix, SLOT_ROOM, push_changes, push_class, push_quoted};
pub use kept::{Bytes, KeptView};
pub use parts::{Parts, same_parts};
pub use shown::{Shown, show};
