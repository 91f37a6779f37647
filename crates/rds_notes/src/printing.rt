//! Prints notes: each is a line, and goes out in one write. It is a sentence that begins with `rdsrt: `, or a JSON
//! object.

use crate::note::{Note, Run, notes_of};
use crate::note_lines::{Line, begun, front, push, push_advice, push_note, push_shown};
use crate::note_objects::push_object;
use arrayvec::ArrayVec;
use clap::Error;
use clap::error::ErrorKind;
use rds_cli::Refusal;
use rds_io::{TellingWrite, put};
use std::io::Write;

/// The most bytes of a group type that a note shows.
const GROUP_ROOM: usize = 60;

/// The most bytes that are printed of a refusal. Refusals of arguments of a usual length are shorter.
const REFUSAL_ROOM: usize = 4096;

/// Prints why the arguments were refused. Prints nothing if they ask for help.
pub fn print_refusal<N: TellingWrite>(error: &Error, screen: &mut N) {
    let mut text = ArrayVec::<u8, REFUSAL_ROOM>::new();
    if error.kind() == ErrorKind::OutOfMemory {
        let _ = write!(text, "rdsrt: fault memory: out of memory\n");
    } else if error.use_stderr() {
        let _ = write!(text, "{}", Refusal::of(error));
    }
    let _ = put(text.as_slice(), screen);
}

/// Prints which group types RadioText Plus may have: these arguments name another one.
pub fn print_no_group<N: TellingWrite>(words: &[&str], screen: &mut N) {
    let mut line = begun();
    push(b"--rtplus ", &mut line);
    push_shown(front(group_given(words), GROUP_ROOM), &mut line);
    push(
        b": write one of 5A, 6A, 7A, 8A, 9A, 11A, 12A and 13A\n",
        &mut line,
    );
    let _ = put(line.as_slice(), screen);
}

/// Returns the argument of `--rtplus`. Empty if there is none.
fn group_given<'a>(words: &'a [&'a str]) -> &'a str {
    let mut is_next = false;
    for &word in words {
        if is_next {
            return word;
        }
        if let Some(group) = word.strip_prefix("--rtplus=") {
            return group;
        }
        is_next = word == "--rtplus";
    }
    ""
}

/// Prints the notes of a run.
pub fn print_notes<N: TellingWrite>(run: &Run<'_>, screen: &mut N) {
    let is_json = run.request.json_notes;
    let notes = notes_of(run);
    for note in notes.as_slice() {
        print_note(*note, is_json, screen);
    }
}

/// Prints a note, as a sentence or as a JSON object.
pub(crate) fn print_note<N: TellingWrite>(note: Note<'_>, is_json: bool, screen: &mut N) {
    let value = note;
    let mut line = begun();
    push_note(note, &mut line);
    let mut advice = Line::new();
    push_advice(note, &mut advice);
    if is_json {
        let mut object = Line::new();
        push_object(value, line.as_slice(), advice.as_slice(), &mut object);
        line = object;
    } else if !advice.is_empty() {
        push(b". ", &mut line);
        push(advice.as_slice(), &mut line);
    }
    let _ = writeln!(line);
    let _ = put(line.as_slice(), screen);
}
