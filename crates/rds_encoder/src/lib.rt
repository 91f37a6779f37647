//! An encoder of RadioText (RT), programme type names (PTYN) and RadioText Plus (RT+), slot by slot.
//!
//! The model is the list of all its entries: restarts, sets and ends of slots. Definitions that use slot numbers alone
//! give the reply to each set (`reply_to`, `tags_reply`), what is on air (`on_air`) and what each slot sends
//! (`sent_in`). The encoder keeps counters, and `EncoderAt` relates it to such a list. It keeps no history and
//! allocates no memory. A text that it accepts is on air at once.
//!
//! ```text
//! let mut encoder = Encoder::new(head, Dwell::new(4)?, Late::new(0)?);
//! encoder.set_text(Text::new(b"HI")?) == Err(Refusal::Silent(4))
//! encoder.tick(true) == None
//! ```
#![tactic(auto)]

mod due;
mod encoder;
mod hold;
mod laws;
mod on_air;
mod reply;
mod round;
mod silence;

pub use encoder::Encoder;
pub use hold::Hold;
pub use laws::{
    broadcasts_are_spaced, even_turns_are_the_texts, numbers_name_broadcasts,
    on_air_from_its_start_on, on_air_is_sent_whole, on_air_is_what_covers_the_slot,
    planned_is_what_was_on_air, sent_is_of_what_is_on_air,
};
pub use on_air::{NameOnAir, TextOnAir};
pub use rds_fields::Late;
pub use reply::{Refusal, Wait};
