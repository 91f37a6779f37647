//! The notes of a run, for a person or for another program: each is a line on standard error. No contract speaks of
//! them: tests compare them.
//!
//! The crate stands beside the program's contracts. `main` passes it what a run met.
#![tactic(auto)]

mod fault_lines;
mod note;
mod note_lines;
mod note_objects;
mod pi_line;
mod printing;
mod row_lines;
mod screen;
mod spans;

pub use note::Run;
pub use pi_line::{MissingPi, print_pi};
pub use printing::{print_no_group, print_notes, print_refusal};
pub use screen::Screen;

#[cfg(test)]
mod tests;
