//! Notes on a script, beside its output. No contract speaks of them.

use crate::row_cause::RowCause;
use rds_encoder::Refusal;
use rds_world::{Command, Reply};

/// Notes on a script that was played. The output is the same with notes and without (this project's own rule).
#[derive(Clone, Copy)]
pub struct ScriptNotes {
    /// Whether the script had a row.
    pub has_row: bool,
    /// The malformed record, if the script stopped at one.
    pub bad: Option<BadRow>,
    /// The first text, name or pair of tags that came too early, if one did.
    pub wait: Option<EarlySet>,
}

impl ScriptNotes {
    /// Makes notes that are empty.
    pub fn new() -> ScriptNotes {
        ScriptNotes {
            has_row: false,
            bad: None,
            wait: None,
        }
    }
}

/// A malformed record of a script.
#[derive(Clone, Copy)]
pub struct BadRow {
    /// The line on which the record starts: 1 + the number of line ends in the bytes before its first byte. LF, CR LF
    /// and a lone CR end a line.
    pub line: u64,
    /// Why it is not a row.
    pub cause: RowCause,
}

/// A text, a name or a pair of tags that came too early.
#[derive(Clone, Copy, Debug)]
pub struct EarlySet {
    /// The slot of the command, counted from 0.
    pub slot: u64,
    /// The thing that the command sets.
    pub thing: SetKind,
    /// The reply: `Silent` or `Held`. Its number is the number of slots to wait: the encoder accepts nothing of this
    /// kind before `slot` plus that number.
    pub refusal: Refusal,
}

/// The things that a command can set.
#[derive(Clone, Copy, Debug)]
pub enum SetKind {
    /// A text.
    Text,
    /// A name.
    Name,
    /// A pair of tags.
    Tags,
}

/// Notes the reply to a command, if it is the first refusal for coming too early.
#[inline(always)]
pub(crate) fn note_wait(wait: &mut Option<EarlySet>, slot: u64, command: &Command, reply: Reply) {
    if let Reply::Refused(refusal) = reply {
        note_refused(wait, slot, command, refusal);
    }
}

/// Notes a refusal, if it is the first for coming too early. Other replies pay nothing for this function.
#[inline(never)]
fn note_refused(wait: &mut Option<EarlySet>, slot: u64, command: &Command, refusal: Refusal) {
    if wait.is_none() {
        *wait = match command {
            Command::Quiet | Command::Restart => None,
            Command::SetText(_) => wait_for(slot, SetKind::Text, refusal),
            Command::SetName(_) => wait_for(slot, SetKind::Name, refusal),
            Command::SetTags(_) => wait_for(slot, SetKind::Tags, refusal),
        };
    }
}

/// Makes a note of `Silent` or `Held`, which end after some slots.
fn wait_for(slot: u64, thing: SetKind, refusal: Refusal) -> Option<EarlySet> {
    match refusal {
        Refusal::Silent(_) | Refusal::Held(_) => Some(EarlySet {
            slot,
            thing,
            refusal,
        }),
        Refusal::NoText | Refusal::OutOfText(_) => None,
    }
}
