//! The reasons why a record of a script is not a row. rds_notes has the sentences.

use rds_fields::Which;

/// The first mistake in a record, in the order of its fields (this project's own format).
///
/// Places count characters from 1, except where a variant counts bytes. Receivers count from 0. A lateness is a number
/// of slots.
#[derive(Clone, Copy)]
pub enum RowCause {
    /// The record has this many fields, not four.
    Fields(usize),
    /// The record has semicolons between its fields.
    Semicolons,
    /// The record is a line of a log.
    LogLine,
    /// A quotation mark is open at the end of a line, so a field goes on in the next one. No row has such a field.
    OpenQuote,
    /// The first field is not a command.
    UnknownCommand,
    /// The argument of `text`, `name` or `tags` is not UTF-8.
    NotUtf8,
    /// The command does not take this argument.
    Argument(ArgumentCause),
    /// The third field is not 0 or 1.
    Free,
    /// The fourth field is malformed, or the station cannot do what it says.
    Receptions(ReceptionsCause),
}

/// What is wrong with an argument.
#[derive(Clone, Copy)]
pub enum ArgumentCause {
    /// `-` or `restart` has an argument.
    NotEmpty,
    /// The character table does not have this character of a text or a name, which is at this place.
    NoSuchCharacter(char, usize),
    /// The backslash at this place does not begin an escape.
    BadEscape(usize),
    /// The text is this many bytes longer than 64. Each character or escape gives one byte.
    TextTooLong(usize),
    /// The name is this many bytes longer than 8. Each character or escape gives one byte.
    NameTooLong(usize),
    /// A text may not contain this byte. The place counts the bytes of the text from 1.
    BadTextByte(u8, usize),
    /// A name may not contain this byte. The place counts the bytes of the name from 1.
    BadNameByte(u8, usize),
    /// The argument of `tags` has this many numbers, one more than it has spaces, and not eight.
    TagCount(usize),
    /// This number of the eight, counted from 1, is not a decimal number up to 255.
    NoTagNumber(usize),
    /// This number of the eight exceeds its limit.
    TagTooHigh {
        number: TagNumber,
        given: u8,
        most: u8,
    },
    /// This tag has class 0, but its start or its length marker is not 0.
    DummyTag(Which),
}

/// What is wrong with the receptions.
#[derive(Clone, Copy)]
pub enum ReceptionsCause {
    /// The character at this place does not begin a reception.
    NoReception(usize),
    /// Digits follow the L or R at this place.
    DigitsAfter(usize),
    /// What follows the G at this place is not up to four decimal digits.
    LatenessDigits(usize),
    /// What follows the W at this place is not twelve hexadecimal digits.
    GroupDigits(usize),
    /// The field goes on after eight receptions.
    TooManyReceivers,
    /// The row names receivers, but a script for `encode` has none.
    EncodeTakesNone,
    /// The row names another number of receivers than the first row.
    ReceiverCount { given: usize, first: usize },
    /// This receiver cannot have its reception.
    Receiver(usize, ReceiverCause),
}

/// Why a receiver cannot have its reception.
#[derive(Clone, Copy)]
pub enum ReceiverCause {
    /// It asks for a group `late` slots late, but the station allows only `most`.
    Late { late: u16, most: u16 },
    /// It asks for the group so many slots back, which is before the first slot.
    BeforeFirst(u16),
    /// It asks for the group so many slots back, but it already has that one or a newer one.
    AlreadyHanded(u16),
    /// It gets a wrong group, but the receivers have no window.
    Wrong,
    /// It gets a segment or a pair of tags that was wrong in the same way less than W slots before.
    WrongConfirmed,
}

/// A number in the argument of `tags`. The variants have the order of the argument.
#[derive(Clone, Copy)]
pub enum TagNumber {
    Toggle,
    Running,
    ClassOfOne,
    StartOfOne,
    LengthOfOne,
    ClassOfTwo,
    StartOfTwo,
    LengthOfTwo,
}
