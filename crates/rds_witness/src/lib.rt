//! Witnesses against a log that breaks a rule: slots that a receiver must lose to show a mix.
//!
//! [`witness`] follows all receivers that lost one burst at once, by a few that together hold all that the others hold.
//! It stops at the first slot in which one of them shows a part that the receiver without a loss does not show. New
//! receivers then play the log again, so that each written mix is a mix by the definitions of `decode` (`IsMix`). If
//! there is no such slot, no burst makes a mix (`NoMixes`).
//!
//! [`lose_with_notes`] plays one receiver that loses given slots, and lists all its mixes.
#![tactic(auto)]

mod burst;
mod candidate;
mod checking;
mod covering;
mod find_witness;
mod firsts;
mod key;
mod laws;
mod lose_log;
mod mix_lines;
mod search;
mod seen;
mod spans;
mod sweep;
mod thing;

pub use burst::Burst;
pub use find_witness::{witness, witness_with_notes};
pub use laws::{a_part_shows_no_more, who_loses_nothing_gets_the_log};
pub use lose_log::{Losing, lose_with_notes};
pub use spans::bursts_of;
