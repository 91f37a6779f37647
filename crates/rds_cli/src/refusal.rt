//! The words of a refusal of the arguments. No contract speaks of them.

use clap::Error;
use clap::error::ErrorKind;
use std::fmt;
use std::fmt::Write;

/// The most bytes of an argument that a refusal shows.
const MOST_SHOWN: usize = 60;

/// How `clap` names the options that take a number, behind the value that was given, and which numbers they take.
const NUMBERS: [(&str, &str); 6] = [
    ("--m <N>': ", "of slots from 1 to 65535"),
    ("--k <N>': ", "of slots from 0 to 1024"),
    ("--confirm <W>': ", "of slots from 2 to 255"),
    ("--keep <N>': ", "of slots from 0 to 65535"),
    ("--grain <N>': ", "of milliseconds from 0 to 87"),
    ("--pty <N>': ", "from 0 to 31"),
];

/// The options that not every command has, behind the commands that have them.
const OF_SOME: [(&str, &str); 14] = [
    ("--all", "audit has"),
    ("--confirm", "decode and sim have"),
    ("--flag-alone", "sim and witness have"),
    ("--grain", "slots has"),
    ("--k", "encode, sim and audit have"),
    ("-k", "encode, sim and audit have"),
    ("--keep", "decode and sim have"),
    ("--lose", "witness has"),
    ("--padded", "audit has"),
    ("--pty", "encode and sim have"),
    ("--rtplus", "each command but slots has"),
    ("--running", "audit has"),
    ("--tp", "encode and sim have"),
    ("--why", "decode and sim have"),
];

/// The options that all commands have.
const OF_ALL: [&str; 7] = [
    "--help",
    "--json-notes",
    "--m",
    "--pi",
    "--quiet",
    "-h",
    "-m",
];

/// What a command has in place of an option: the option, the beginning of the command's usage, and the words.
const IN_PLACE: [(&str, &str, &str); 3] = [
    (
        "--confirm",
        "rdsrt audit ",
        "; for an audit give --k K + W - 1",
    ),
    ("--k", "rdsrt decode ", "; a receiver needs M alone"),
    ("-k", "rdsrt decode ", "; a receiver needs M alone"),
];

/// The beginning of the usage in a refusal.
const USAGE: &str = "\n\nUsage: ";

/// The beginning of the usage of arguments without a command.
const NO_COMMAND: &str = "rdsrt <COMMAND>";

/// The beginning of a tip of `clap` that nobody wants: a file whose name begins with a hyphen is rare.
const TO_PASS: &str = "\n\n  tip: to pass '";

/// The first bytes of a text for a terminal: `\xHH` is each byte of a character that moves the cursor or turns the text.
#[derive(Clone, Copy)]
pub struct Shown<'a> {
    text: &'a str,
    most: usize,
}

impl Shown<'_> {
    /// Shows the whole characters in the first `most` bytes of the text.
    pub fn front(text: &str, most: usize) -> Shown<'_> {
        Shown { text, most }
    }
}

impl fmt::Display for Shown<'_> {
    fn fmt<W: fmt::Write>(&self, f: &mut fmt::Formatter<W>) -> fmt::Result {
        let mut room = self.most;
        for character in self.text.chars() {
            let Some(left) = room.checked_sub(character.len_utf8()) else {
                return Ok(());
            };
            room = left;
            fmt_character(character, f)?;
        }
        Ok(())
    }
}

/// Writes a character, or its bytes.
fn fmt_character<W: fmt::Write>(character: char, f: &mut fmt::Formatter<W>) -> fmt::Result {
    let moves = character.is_control()
        || matches!(character, '\u{200E}' | '\u{200F}' | '\u{2028}'..='\u{202E}' | '\u{2066}'..='\u{2069}');
    if !moves {
        return write!(f, "{character}");
    }
    let mut bytes = [0; 4];
    for byte in character.encode_utf8(&mut bytes).bytes() {
        write!(f, "\\x{byte:02X}")?;
    }
    Ok(())
}

/// The text of `clap` for arguments that are no request: help, or why they are refused. It says which numbers an option
/// takes, that none takes a number below 0, and which commands have an option. Of a refused argument it has the first
/// bytes, for a terminal.
#[derive(Clone, Copy)]
pub struct Refusal<'a> {
    error: &'a Error,
}

impl Refusal<'_> {
    /// Makes the text of this answer of `clap`.
    pub fn of(error: &Error) -> Refusal<'_> {
        Refusal { error }
    }
}

impl fmt::Display for Refusal<'_> {
    fn fmt<W: fmt::Write>(&self, f: &mut fmt::Formatter<W>) -> fmt::Result {
        match end_of_argument(self.error.kind()) {
            Some(end) => write!(Words { end, inner: f }, "{}", self.error),
            None => write!(f, "{}", self.error),
        }
    }
}

/// Returns what `clap` writes behind the refused argument. `None` if a refusal of this kind has none.
fn end_of_argument(kind: ErrorKind) -> Option<&'static str> {
    match kind {
        ErrorKind::InvalidValue | ErrorKind::ValueValidation | ErrorKind::TooManyValues => {
            Some("' for '")
        }
        ErrorKind::UnknownArgument => Some("' found"),
        ErrorKind::InvalidSubcommand => Some("'\n"),
        _ => None,
    }
}

/// Writes a refusal that `clap` writes as a whole.
#[derive(Drop)]
struct Words<'a, W> {
    /// What is behind the argument.
    end: &'static str,
    inner: &'a mut fmt::Formatter<W>,
}

impl<W: fmt::Write> fmt::Write for Words<'_, W> {
    fn write_str(&mut self, text: &str) -> fmt::Result {
        if let Some((begin, quoted)) = text.split_once("'")
            && let Some((argument, rest)) = quoted.split_once(self.end)
        {
            let shown = Shown::front(argument, MOST_SHOWN);
            write!(self.inner, "{begin}'{shown}{}", self.end)?;
            return fmt_reason(argument, rest, self.inner);
        }
        fmt_lines(text, self.inner)
    }
}

/// Writes why an argument was refused: which numbers its option takes, or the words of `clap`, which may name it again.
fn fmt_reason<W: fmt::Write>(argument: &str, rest: &str, f: &mut fmt::Formatter<W>) -> fmt::Result {
    if let Some((option, numbers)) = NUMBERS.iter().find(|(option, _)| rest.starts_with(*option)) {
        return write!(
            f,
            "{option}write a whole number {numbers}\n\nFor more information, try '--help'.\n"
        );
    }
    if is_below_zero(argument)
        && let Some((_, usage)) = rest.rsplit_once(USAGE)
    {
        return write!(
            f,
            ": no option takes a number below 0, write for example -m 128{USAGE}{usage}"
        );
    }
    if argument.is_empty() {
        return fmt_lines(rest, f);
    }
    if let Some((_, usage)) = rest.rsplit_once(USAGE)
        && has_cure(argument, rest, usage)
    {
        fmt_cure(argument, usage, f)?;
        return write!(f, "{USAGE}{usage}");
    }
    for (place, part) in rest.split(argument).enumerate() {
        if place > 0 {
            write!(f, "{}", Shown::front(argument, MOST_SHOWN))?;
        }
        fmt_lines(part, f)?;
    }
    Ok(())
}

/// Returns whether an option was refused for which there are words in place of a tip of `clap`, or no words.
fn has_cure(argument: &str, rest: &str, usage: &str) -> bool {
    if !argument.starts_with("-") {
        return false;
    }
    rest.starts_with(TO_PASS)
        || usage.starts_with(NO_COMMAND)
        || commands_with(argument).is_some()
        || lower_case(argument).is_some()
}

/// Writes what to type in place of a refused option, if there is something.
fn fmt_cure<W: fmt::Write>(argument: &str, usage: &str, f: &mut fmt::Formatter<W>) -> fmt::Result {
    if usage.starts_with(NO_COMMAND) {
        return write!(
            f,
            ": write a command before its options, for example rdsrt decode --pi C201"
        );
    }
    if let Some(commands) = commands_with(argument) {
        let more = in_place(argument, usage);
        return write!(f, ": {commands} {argument}{more}");
    }
    match lower_case(argument) {
        Some(option) => write!(f, ": options are in lower case, write {option}"),
        None => Ok(()),
    }
}

/// Returns which commands have an option that another one has not.
fn commands_with(argument: &str) -> Option<&'static str> {
    let (_, commands) = OF_SOME.iter().find(|(option, _)| argument == *option)?;
    Some(*commands)
}

/// Returns what the command of this usage has in place of an option. Empty if it has nothing.
fn in_place(argument: &str, usage: &str) -> &'static str {
    for (option, command, words) in IN_PLACE {
        if argument == option && usage.starts_with(command) {
            return words;
        }
    }
    ""
}

/// Returns the option that an argument is if its case does not count.
fn lower_case(argument: &str) -> Option<&'static str> {
    let of_some = OF_SOME.iter().map(|(option, _)| *option);
    of_some.chain(OF_ALL).find(|option| argument != *option
        && argument.eq_ignore_ascii_case(option))
}

/// Returns whether an argument with a hyphen is a number, which was meant for the option before it.
fn is_below_zero(argument: &str) -> bool {
    match argument.strip_prefix("-") {
        Some(number) => matches!(number.bytes().next(), Some(b'0'..=b'9')),
        None => false,
    }
}

/// Writes lines for a terminal.
fn fmt_lines<W: fmt::Write>(text: &str, f: &mut fmt::Formatter<W>) -> fmt::Result {
    for (place, line) in text.split("\n").enumerate() {
        if place > 0 {
            f.write_str("\n")?;
        }
        write!(f, "{}", Shown::front(line, line.len()))?;
    }
    Ok(())
}
