//! The whole program as a library: it takes its arguments, a reader and a writer, and returns its exit status. The
//! contract of `run` says which output each input has.
#![tactic(auto)]

mod program;
mod report;
mod run_input;
mod status;
mod words;

pub use program::{run, run_read};
pub use report::Report;
pub use run_input::{RunInput, input_of};
pub use status::{FAULT, REFUSED, no_words, write_no_memory};
pub use words::{texts, words_of};
