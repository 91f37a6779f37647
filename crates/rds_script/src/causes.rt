//! Which cause a record has that is not a row, for a person.
//!
//! No clause says which. That the record says no event is proved where it is read (`row`), and a table of rows compares
//! the causes (tests/test_notes.py).

use crate::row_cause::{ArgumentCause, ReceiverCause, ReceptionsCause, RowCause, TagNumber};
use csv::ByteRecord;
use memchr::{memrchr, memrchr2};
use rds_assembly::{LONGEST_TEXT, NAME_LENGTH, TextRefused};
use rds_charset::{BadCharacter, measure_text};
use rds_fields::{Late, Which};
use rds_world::{Reception, SlotEvent, StepRefused};

/// The numbers that `tags` takes, and the most that each may be.
const TAG_NUMBERS: [(TagNumber, u8); 8] = [
    (TagNumber::Toggle, 1),
    (TagNumber::Running, 1),
    (TagNumber::ClassOfOne, 63),
    (TagNumber::StartOfOne, 63),
    (TagNumber::LengthOfOne, 63),
    (TagNumber::ClassOfTwo, 63),
    (TagNumber::StartOfTwo, 63),
    (TagNumber::LengthOfTwo, 31),
];

/// The places of the spaces between the blocks of a line of a log.
const SPACES: [usize; 3] = [4, 9, 14];

/// Returns why a record is no row: an open quotation mark, if a field has a line end, or else this cause.
// Cold path.
#[inline(never)]
pub(crate) fn row_cause(row: &ByteRecord, cause: RowCause) -> RowCause {
    for field in row.iter() {
        if memrchr2(b'\n', b'\r', field).is_some() {
            return RowCause::OpenQuote;
        }
    }
    match (cause, row.get(0)) {
        (RowCause::Fields(_), Some(first)) => fields_cause(first, cause),
        _ => cause,
    }
}

/// Returns why a record with this first field does not have four: it is no row of a script, or else this cause.
fn fields_cause(first: &[u8], cause: RowCause) -> RowCause {
    if is_log_line(first) {
        RowCause::LogLine
    } else if memrchr(b';', first).is_some() {
        RowCause::Semicolons
    } else {
        cause
    }
}

/// Returns whether bytes look like a line of a log: words of four bytes with spaces between them, digits or dashes.
fn is_log_line(bytes: &[u8]) -> bool {
    let Some(blocks) = bytes.get(..19) else {
        return false;
    };
    blocks.iter().enumerate().all(|(place, byte)| {
        if SPACES.contains(&place) {
            *byte == b' '
        } else {
            *byte == b'-' || byte.is_ascii_hexdigit()
        }
    })
}

/// Returns why an argument is no text: `why`, or what stops its reading.
// Cold path.
#[inline(never)]
pub(crate) fn text_cause(argument: &str, bytes: &[u8], why: Option<TextRefused>) -> RowCause {
    if let Some(TextRefused::BadByte(at)) = why {
        let byte = bytes.get(at).copied().unwrap_or(0);
        return RowCause::Argument(ArgumentCause::BadTextByte(byte, at.saturating_add(1)));
    }
    RowCause::Argument(match measure_text(argument) {
        Ok(count) => ArgumentCause::TextTooLong(count.saturating_sub(LONGEST_TEXT)),
        Err(bad) => character_cause(bad),
    })
}

/// Returns why an argument is no name: `why`, or what stops its reading.
// Cold path.
#[inline(never)]
pub(crate) fn name_cause(argument: &str, bytes: &[u8], why: Option<TextRefused>) -> RowCause {
    if let Some(TextRefused::BadByte(at)) = why {
        let byte = bytes.get(at).copied().unwrap_or(0);
        return RowCause::Argument(ArgumentCause::BadNameByte(byte, at.saturating_add(1)));
    }
    RowCause::Argument(match measure_text(argument) {
        Ok(count) => ArgumentCause::NameTooLong(count.saturating_sub(NAME_LENGTH)),
        Err(bad) => character_cause(bad),
    })
}

/// Returns the cause for a text or a name with this unreadable character.
fn character_cause(bad: BadCharacter) -> ArgumentCause {
    if bad.character == '\\' {
        ArgumentCause::BadEscape(bad.place)
    } else {
        ArgumentCause::NoSuchCharacter(bad.character, bad.place)
    }
}

/// Returns why an argument is not eight numbers: it has another number of pieces, or the one after so many is none.
// Cold path.
#[inline(never)]
pub(crate) fn number_cause(argument: &str, before: usize) -> RowCause {
    let spaces = argument.bytes().filter(|byte| *byte == b' ').count();
    RowCause::Argument(match spaces.saturating_add(1) {
        8 => ArgumentCause::NoTagNumber(before.saturating_add(1)),
        count => ArgumentCause::TagCount(count),
    })
}

/// Returns why eight numbers are no pair of tags: the first that exceeds its limit, or else the first tag with class 0
/// and a start or a length marker that is not 0.
// Cold path.
#[inline(never)]
pub(crate) fn pair_cause(numbers: [u8; 8]) -> RowCause {
    for place in 0..8 {
        let given = numbers[place];
        let (number, most) = TAG_NUMBERS[place];
        if given > most {
            return RowCause::Argument(ArgumentCause::TagTooHigh {
                number,
                given,
                most,
            });
        }
    }
    let [_, _, class, start, extra, _, _, _] = numbers;
    let tag = if class == 0 && (start > 0 || extra > 0) {
        Which::One
    } else {
        Which::Two
    };
    RowCause::Argument(ArgumentCause::DummyTag(tag))
}

/// Returns why this letter with the digits after it is not a reception. `place` is the place of the letter.
pub(crate) fn reception_cause(letter: u8, place: usize) -> RowCause {
    RowCause::Receptions(match letter {
        b'G' => ReceptionsCause::LatenessDigits(place),
        b'L' | b'R' => ReceptionsCause::DigitsAfter(place),
        b'W' => ReceptionsCause::GroupDigits(place),
        _ => ReceptionsCause::NoReception(place),
    })
}

/// Returns why the event of a row was refused. `first` is the number of receivers of the first row.
// Cold path.
#[inline(never)]
pub(crate) fn refused_cause(
    why: StepRefused,
    most: Late,
    slot: u64,
    first: usize,
    event: &SlotEvent,
) -> RowCause {
    let receptions = event.receptions.as_slice();
    match why {
        StepRefused::ReceiverCount => RowCause::Receptions(ReceptionsCause::ReceiverCount {
            given: receptions.len(),
            first,
        }),
        StepRefused::Late(receiver) => {
            let late = late_cause(lateness_at(receptions, receiver), most, slot);
            receiver_cause(receiver, late)
        }
        StepRefused::Wrong(receiver) => receiver_cause(receiver, ReceiverCause::Wrong),
        StepRefused::WrongConfirmed(receiver) => {
            receiver_cause(receiver, ReceiverCause::WrongConfirmed)
        }
    }
}

/// Returns how many slots late the receiver's group is; 0 if it gets no group.
fn lateness_at(receptions: &[Reception], receiver: usize) -> u16 {
    match receptions.get(receiver) {
        Some(Reception::Got(late)) => *late,
        _ => 0,
    }
}

/// Returns the cause for a receiver that cannot have its reception.
fn receiver_cause(receiver: usize, cause: ReceiverCause) -> RowCause {
    RowCause::Receptions(ReceptionsCause::Receiver(receiver, cause))
}

/// Returns the cause for a receiver that asks for a group, `late` slots late, that is not due to it. Groups may come at
/// most `most` slots late.
fn late_cause(late: u16, most: Late, slot: u64) -> ReceiverCause {
    let most = most.get();
    if late > most {
        ReceiverCause::Late { late, most }
    } else if u64::from(late) > slot {
        ReceiverCause::BeforeFirst(late)
    } else {
        ReceiverCause::AlreadyHanded(late)
    }
}
