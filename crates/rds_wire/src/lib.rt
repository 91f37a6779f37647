//! The wire laws: whatever slots of a log are lost, and however late its groups come, up to K slots, what `decode`
//! prints was on air lately. They hold for each log that `encode` writes, and for each log to which `audit` says yes.
//!
//! No crate of the program uses this one: it says what their promises mean together. [`the_headline`] states it in one
//! file, and [`trial`] on a call.
#![tactic(auto)]

mod arrivals;
mod laws;
mod trials;

pub use laws::{
    groups_are_heard_as_messages, nothing_new_is_displayed, the_headline, what_a_mix_means,
    what_is_asked_for_ran, what_is_encoded_is_safe_if_heard_twice,
    what_is_encoded_is_safe_on_the_wire, what_is_kept_was_displayed, what_is_received,
    what_passes_is_safe_if_heard_twice, what_passes_is_safe_on_the_wire,
    what_the_program_encodes_it_decodes_safely, what_was_on_air,
};
pub use trials::{Receiver, Tried, trial};
