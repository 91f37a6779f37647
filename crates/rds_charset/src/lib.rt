//! Characters in and out: the bytes of a text as people read them.
//!
//! A text on air is a list of bytes. Its printed form is UTF-8, in which each byte is a character of one fixed table or
//! an escape such as `\x0D`. Reading the printed form gives the bytes again. Nothing here allocates memory.
//!
//! `write_text` writes exactly the printed form. If a write fails, it has written a first part of it:
//!
//!     write_text(&[0x43, 0x61, 0x66, 0x82], &mut Told::new(writer))    // Café
//!
//! `push_displayed` is for displays: it has no escapes, and more characters.
#![tactic(auto)]

mod display;
mod laws;
mod printing;
mod reading;
mod table;

pub use display::push_displayed;
pub use laws::{
    displayed_takes_three, printed_is_read_back, printed_is_text, printed_takes_four,
    text_is_read_one_way,
};
pub use printing::{push_text, write_text};
pub use rds_io::{TellingRead, TellingWrite, Told, WriteFault, put};
pub use reading::{BadCharacter, TextFault, measure_text, read_text};
