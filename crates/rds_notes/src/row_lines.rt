//! The sentences of the reasons why a record of a script is not a row.

use crate::note_lines::{Line, push};
use rds_script::{ArgumentCause, ReceiverCause, ReceptionsCause, RowCause, TagNumber};
use std::io::Write;

/// Appends why a record is not a row.
pub(crate) fn push_row_cause(cause: RowCause, line: &mut Line) {
    let _ = match cause {
        RowCause::Fields(found) => {
            let _ = write!(
                line,
                "expected 4 fields (COMMAND,ARGUMENT,FREE,RECEPTIONS), found {found}"
            );
            if found > 4 {
                let _ = write!(line, ": put a text with a comma between quotation marks");
            }
            Ok(())
        }
        RowCause::Semicolons => write!(line, "it has semicolons between its fields: write commas"),
        RowCause::LogLine => write!(
            line,
            "it looks like a line of a log, which decode, audit, witness and slots read"
        ),
        RowCause::OpenQuote => write!(
            line,
            "a quotation mark (\") is still open at the end of its line, so the lines after it are in the same field"
        ),
        RowCause::UnknownCommand => write!(
            line,
            "COMMAND is not one of -, restart, text, name, tags (lower case)"
        ),
        RowCause::NotUtf8 => write!(line, "ARGUMENT is not UTF-8"),
        RowCause::Argument(cause) => {
            push(b"ARGUMENT: ", line);
            push_argument_cause(cause, line);
            Ok(())
        }
        RowCause::Free => write!(line, "FREE is not 0 or 1"),
        RowCause::Receptions(cause) => {
            push(b"RECEPTIONS: ", line);
            push_receptions_cause(cause, line);
            Ok(())
        }
    };
}

/// Appends what is wrong with an argument.
fn push_argument_cause(cause: ArgumentCause, line: &mut Line) {
    let _ = match cause {
        ArgumentCause::NotEmpty => write!(line, "- and restart take none"),
        ArgumentCause::NoSuchCharacter(character, place) => write!(
            line,
            "rdsrt's character table has no {character:?}, at character {place}"
        ),
        ArgumentCause::BadEscape(place) => write!(
            line,
            "the backslash at character {place} begins no escape (\\x and two hexadecimal digits)"
        ),
        ArgumentCause::TextTooLong(by) => {
            write!(line, "the text is too long by {by} (at most 64 characters)")
        }
        ArgumentCause::NameTooLong(by) => {
            write!(line, "the name is too long by {by} (at most 8 characters)")
        }
        ArgumentCause::BadTextByte(byte, place) => write!(
            line,
            "byte {place} of the text is \\x{byte:02X}, which a text may not contain"
        ),
        ArgumentCause::BadNameByte(byte, place) => write!(
            line,
            "byte {place} of the name is \\x{byte:02X}, which a name may not contain"
        ),
        ArgumentCause::TagCount(found) => write!(
            line,
            "tags takes 8 numbers with one space between them, found {found}"
        ),
        ArgumentCause::NoTagNumber(number) => write!(
            line,
            "number {number} is not 1 to 3 decimal digits of at most 255"
        ),
        ArgumentCause::TagTooHigh {
            number,
            given,
            most,
        } => write!(
            line,
            "{} is {given}, at most {most} is allowed",
            number_name(number)
        ),
        ArgumentCause::DummyTag(tag) => write!(
            line,
            "the {tag} tag has class 0, so its start and its length marker must be 0"
        ),
    };
}

/// Appends what is wrong with the receptions.
fn push_receptions_cause(cause: ReceptionsCause, line: &mut Line) {
    let _ = match cause {
        ReceptionsCause::NoReception(place) => {
            write!(line, "character {place} is not G, L, W or R")
        }
        ReceptionsCause::DigitsAfter(place) => write!(
            line,
            "digits after the L or R at character {place}, only G and W take digits"
        ),
        ReceptionsCause::LatenessDigits(place) => write!(
            line,
            "the G at character {place} takes up to 4 decimal digits"
        ),
        ReceptionsCause::GroupDigits(place) => write!(
            line,
            "the W at character {place} takes 12 hexadecimal digits (blocks 2 to 4)"
        ),
        ReceptionsCause::TooManyReceivers => write!(line, "more than 8 receivers"),
        ReceptionsCause::EncodeTakesNone => write!(
            line,
            "encode takes none; leave the field empty, but keep the comma before it"
        ),
        ReceptionsCause::ReceiverCount { given, first } => write!(
            line,
            "the number of receivers is {given}, but the first row has {first}"
        ),
        ReceptionsCause::Receiver(receiver, cause) => {
            let _ = write!(line, "receiver {receiver}: ");
            push_receiver_cause(cause, line);
            Ok(())
        }
    };
}

/// Appends why a receiver cannot have its reception.
fn push_receiver_cause(cause: ReceiverCause, line: &mut Line) {
    let _ = match cause {
        ReceiverCause::Late { late, most } => {
            write!(line, "G{late} is later than --k {most} allows")
        }
        ReceiverCause::BeforeFirst(late) => {
            write!(line, "G{late} asks for a slot before the first one")
        }
        ReceiverCause::AlreadyHanded(late) => {
            write!(line, "it already has the slot of G{late}, or a newer one")
        }
        ReceiverCause::Wrong => write!(
            line,
            "a wrong group; only receivers with --confirm may get one"
        ),
        ReceiverCause::WrongConfirmed => write!(
            line,
            "the same wrong group again within the window of --confirm"
        ),
    };
}

/// Returns the name of a number in the argument of `tags`.
fn number_name(number: TagNumber) -> &'static str {
    match number {
        TagNumber::Toggle => "toggle",
        TagNumber::Running => "running",
        TagNumber::ClassOfOne => "class of tag 1",
        TagNumber::StartOfOne => "start of tag 1",
        TagNumber::LengthOfOne => "length marker of tag 1",
        TagNumber::ClassOfTwo => "class of tag 2",
        TagNumber::StartOfTwo => "start of tag 2",
        TagNumber::LengthOfTwo => "length marker of tag 2",
    }
}
