//! Prints what a person wants to know while a log is still open.

use crate::note::Note;
use crate::printing::print_note;
use rds_arrivals::Break;
use rds_cli::{Request, Task};
use rds_io::TellingWrite;
use rds_lines::{BreakPlace, Lack, News};
use std::mem;

/// Prints news at once: each kind of break, and that a log has too few lines, once.
#[derive(Drop)]
pub struct Screen<N> {
    writer: N,
    is_json: bool,
    /// Whether news is left out.
    is_quiet: bool,
    /// Whether the command adds the lost slots itself.
    fills: bool,
    was_back: bool,
    was_hour: bool,
}

impl<N: TellingWrite> Screen<N> {
    /// Makes the screen of a request, over the writer for its notes.
    pub fn new(request: &Request<'_>, writer: N) -> Screen<N> {
        Screen {
            writer,
            is_json: request.json_notes,
            is_quiet: request.quiet,
            fills: matches!(request.task, Task::Slots(..)),
            was_back: false,
            was_hour: false,
        }
    }
}

impl<N: TellingWrite> News for Screen<N> {
    fn lacks(&mut self, lack: Lack) -> bool {
        if !self.is_quiet && !self.fills {
            print_note(Note::Lacking(lack), self.is_json, &mut self.writer);
        }
        true
    }

    fn breaks(&mut self, at: BreakPlace) {
        let place = at;
        let was = match at.why {
            Break::Back => mem::replace(&mut self.was_back, true),
            Break::Hour => mem::replace(&mut self.was_hour, true),
        };
        if !self.is_quiet && !was {
            print_note(Note::Break(place), self.is_json, &mut self.writer);
        }
    }
}
