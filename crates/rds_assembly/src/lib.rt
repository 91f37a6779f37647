//! Texts and programme type names (PTYN), their segments, and the segments that a receiver holds.
//!
//! A `Text` or a `Name` has valid bytes, and returns the segment at each of its addresses. An `Assembly` holds
//! segments. Its model is a finite map of cells, from an address to four bytes. `put` and `clear` are those of the map,
//! and `put` returns false only if nothing changed. `whole` returns the one value that the cells make whole
//! (`IsWholeText`, `IsWholeName`), and `None` exactly if there is none. Cells from the segments of one value make that
//! value whole, or none; all of its segments make it whole (`own` and `all` of `Service`). So nothing is shown over a
//! gap. The crate allocates no memory. It has no flags and no time: a receiver has them.
//!
//! The segments lie side by side in 64 bytes, and a mask has a bit for each (`held_cells`). So the code looks for the
//! end of a text in all bytes at once (`lanes`).
//!
//! ```text
//! let sent = Text::new(b"HI")?;
//! let mut held: Assembly<RadioText> = Assembly::new();
//! held.put(0, sent.segment(0));
//! held.whole() == Some(b"HI".as_slice())
//! ```
#![tactic(auto)]

mod assembly;
mod lanes;
mod name;
mod radio_text;
mod service;
mod text;
mod type_name;

pub use assembly::{Assembly, has_segment, hold, is_same_segment, whole};
pub use name::{Name, name_segment};
pub use radio_text::{CARRIAGE_RETURN, RadioText};
pub use service::Service;
pub use text::{LONGEST_TEXT, Text, TextRefused, is_text_byte, text_count, text_segment};
pub use type_name::{NAME_LENGTH, TypeName};
