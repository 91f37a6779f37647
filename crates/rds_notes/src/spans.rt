//! Why the argument of `--lose` is refused, in a sentence.

use crate::note_lines::{Line, front, push, push_shown};
use rds_cli::{Request, Task};
use std::io::Write;

/// The most bytes of the argument, and of the wrong span in it, that a note shows.
const ARGUMENT_ROOM: usize = 60;

/// Why a span is refused.
#[derive(Clone, Copy)]
enum SpanCause {
    /// It is no number, and no two numbers with a hyphen between them.
    NoNumber,
    /// A slot is above 2^32 - 1.
    TooHigh,
    /// Its last slot comes before its first.
    Backward,
    /// It does not begin after the span before it.
    NotAfter,
}

/// Appends why the slots to lose are refused: the first wrong span, and what is wrong with it.
pub(crate) fn push_spans(request: &Request<'_>, line: &mut Line) {
    let given = request.lose;
    let _ = write!(line, "fault lose: ");
    if given.is_empty() && matches!(request.task, Task::Lose { flag_alone: true }) {
        let _ = write!(
            line,
            "--flag-alone needs --lose with slots, for example --lose 3-7,12"
        );
        return;
    }
    let _ = write!(line, "--lose ");
    push_shown(front(given, ARGUMENT_ROOM), line);
    if let Some((span, cause)) = first_wrong(given) {
        if span != given {
            let _ = write!(line, ": ");
            push_shown(front(span, ARGUMENT_ROOM), line);
        }
        push(words_of(cause), line);
    }
    let _ = write!(line, ". Write spans in ascending order, for example 3-7,12");
}

/// Returns the words for a cause, behind the span.
fn words_of(cause: SpanCause) -> &'static [u8] {
    match cause {
        SpanCause::NoNumber => b" is not a slot such as 12, and no span such as 3-7",
        SpanCause::TooHigh => b" has a slot above 4294967295",
        SpanCause::Backward => b" ends before it begins",
        SpanCause::NotAfter => b" does not begin after the span before it",
    }
}

/// Returns the first wrong span of the argument, and what is wrong with it.
fn first_wrong(given: &str) -> Option<(&str, SpanCause)> {
    let mut next = 0;
    for span in given.split(',') {
        match end_of(span, next) {
            Ok(last) => next = last.saturating_add(1),
            Err(cause) => return Some((span, cause)),
        }
    }
    None
}

/// Returns the last slot of a span, which has to begin with this slot or after it.
fn end_of(span: &str, next: u64) -> Result<u64, SpanCause> {
    let (begin, end) = span.split_once('-').unwrap_or((span, span));
    let first = slot_of(begin)?;
    let last = slot_of(end)?;
    if last < first {
        return Err(SpanCause::Backward);
    }
    if first < next {
        return Err(SpanCause::NotAfter);
    }
    Ok(last)
}

/// Reads a slot.
fn slot_of(digits: &str) -> Result<u64, SpanCause> {
    if digits.is_empty() || !digits.bytes().all(|byte| byte.is_ascii_digit()) {
        return Err(SpanCause::NoNumber);
    }
    match digits.parse::<u32>() {
        Ok(slot) => Ok(u64::from(slot)),
        Err(_) => Err(SpanCause::TooHigh),
    }
}
