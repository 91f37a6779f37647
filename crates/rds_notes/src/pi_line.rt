//! The words to type if the arguments have no `--pi`.

use crate::note_lines::{Line, begun, push, push_count};
use clap::Error;
use clap::error::ErrorKind;
use rds_cli::identification_of;
use rds_io::{TellingWrite, put};
use rds_lines::Heard;
use std::io::Write;

/// The place of the first argument behind the command.
const FIRST: usize = 2;

/// The PI of no log.
const EXAMPLE: &[u8] = b"C201, with the PI code of your station in its place";

/// The usual wrong forms of `--pi`.
const MEANT: [&str; 3] = ["-p", "-pi", "--PI"];

/// Arguments that were refused for want of `--pi` (this project's own rule).
#[derive(Clone, Copy)]
pub struct MissingPi<'a> {
    /// The PI that they have without `--pi` before it.
    typed: Option<&'a str>,
}

impl<'a> MissingPi<'a> {
    /// Looks for the PI in these refused arguments, the program's own name first. `None` if another one of them is the
    /// reason, or if they have `--pi`.
    pub fn of(error: &Error, words: &'a [&'a str]) -> Option<MissingPi<'a>> {
        let typed = typed_pi(words);
        let lacks = match error.kind() {
            ErrorKind::MissingRequiredArgument => true,
            ErrorKind::UnknownArgument => typed.is_some(),
            _ => false,
        };
        if lacks && !words.iter().any(|word| is_pi_option(word)) {
            Some(MissingPi { typed })
        } else {
            None
        }
    }

    /// Returns whether they have no PI at all.
    pub fn is_unknown(&self) -> bool {
        self.typed.is_none()
    }
}

/// Returns whether a word is `--pi`, with its value or without.
fn is_pi_option(word: &str) -> bool {
    word == "--pi" || word.starts_with("--pi=")
}

/// Returns the first word that is a PI, and no value of another option.
fn typed_pi<'a>(words: &'a [&'a str]) -> Option<&'a str> {
    let mut last = "";
    for (place, &word) in words.iter().enumerate() {
        if place >= FIRST
            && let Some(pi) = pi_in(word, last)
        {
            return Some(pi);
        }
        last = word;
    }
    None
}

/// Returns the PI that a word is or has, behind this word.
fn pi_in<'a>(word: &'a str, last: &str) -> Option<&'a str> {
    let given = match word.strip_prefix("-pi") {
        Some(rest) => rest.strip_prefix("=").unwrap_or(rest),
        None => word,
    };
    let is_free = !last.starts_with("-") || MEANT.contains(&last);
    if is_free && identification_of(given).is_some() {
        Some(given)
    } else {
        None
    }
}

/// Prints the words to type in place of these arguments: the PI that they have, that of the first group of their log, or
/// an example.
pub fn print_pi<N: TellingWrite>(missing: MissingPi<'_>, log: Option<Heard>, screen: &mut N) {
    let mut line = begun();
    push(b"write --pi ", &mut line);
    match missing.typed {
        Some(typed) => push(typed.as_bytes(), &mut line),
        None => push_found(log, &mut line),
    }
    push(b"\n", &mut line);
    let _ = put(line.as_slice(), screen);
}

/// Appends the PI of the first group of a log with the number of its groups, or an example if there is no group.
fn push_found(log: Option<Heard>, line: &mut Line) {
    let Some(heard) = log else {
        return push(EXAMPLE, line);
    };
    let Some(first) = heard.first else {
        return push(EXAMPLE, line);
    };
    let others = heard.groups.saturating_sub(heard.of_first);
    let _ = write!(line, "{first:04X}: the log has ");
    push_count(heard.of_first, "group", "groups", line);
    let _ = write!(line, " of this PI");
    if others > 0 {
        let _ = write!(line, " and {others} of others");
    }
    if others >= heard.of_first {
        let _ = write!(line, ". rdsrt-lines names the PI that most groups have");
    }
}
