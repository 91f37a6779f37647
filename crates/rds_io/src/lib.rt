//! Input and output: readers and writers that count their failures, output lines in a bounded buffer, hexadecimal
//! words, and why a command stopped.
//!
//! A [`Told`] counts its calls of `read_one` and `write_one` that failed. So a program can distinguish a failure from
//! an end. Nothing here allocates memory.
#![tactic(auto)]

mod fault;
mod hexadecimal;
mod lines;
mod told;

pub use fault::{BadLine, LogFault};
pub use hexadecimal::{digits_of_four, four_words, word_at};
pub use lines::Lines;
pub use told::{TellingRead, TellingWrite, Told, WriteFault, put};
