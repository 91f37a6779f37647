//! A receiver of RadioText (RT), programme type names (PTYN) and RadioText Plus (RT+), slot by slot.
//!
//! The model is the run of each service: the longest last part of the received segments with one flag and with no gap
//! of the dwell or more. Each message counts, or with a window each one that is confirmed. Each call keeps
//! `ReceiverAt`. So `text`, `name`, `item` and `tag` show what the run of all that counts makes whole, and the pieces
//! that the tags mark in it. A receiver holds ages and no slot numbers. It copies no text and allocates no memory.
//!
//! ```text
//! let mut receiver = Receiver::new(0xC201, dwell);
//! receiver.slot(Some(Group::from_blocks([0xC201, 0x2140, 0x4849, 0x0D20])));
//! receiver.text() == Some(b"HI".as_slice())
//! ```
#![tactic(auto)]

mod display;
mod fragment;
mod hearing;
mod held;
mod keeping;
mod last;
mod laws;
mod receiver;
mod shown;
mod view;
mod why;
mod window;

pub use display::{StoredDisplay, StoredSegments};
pub use fragment::Fragment;
pub use keeping::{Keeping, Kept, NOTHING_KEPT};
pub use last::StoredLastSegments;
pub use laws::{one_view, run_is_the_longest, what_is_kept_was_shown};
pub use receiver::{Receiver, heard, heard_blocks};
pub use view::View;
pub use why::{WhyNone, Whys};
pub use window::Window;
