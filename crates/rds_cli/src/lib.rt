//! The arguments of the command line: which are taken, what they ask for, and which kind of answer the others get.
//!
//! specs/CommandLine defines the command line as a command of `clap`. The request is read from that definition.
#![tactic(auto)]

mod command_line;
mod end;
mod laws;
mod refusal;
mod request;

pub use end::End;
pub use laws::words_of_the_examples;
pub use refusal::{Refusal, Shown};
pub use request::{
    Programme, Request, Task, group_named, identification_of, read_words, request_in,
};
