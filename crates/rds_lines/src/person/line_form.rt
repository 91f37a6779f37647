//! The forms in which other programs and radios write groups, for a person. The program rdsrt-lines reads each of them.

use crate::person::line_cause::is_block;

/// The number of blocks of a group.
const COUNT: usize = 4;

/// The number of digits of a group in one word.
const WORD: usize = 16;

/// A word before a group with as many bytes is taken for a time.
const LONG: usize = 10;

/// The byte order marks of UTF-16.
const MARKS: [&[u8]; 2] = [b"\xFF\xFE", b"\xFE\xFF"];

/// Returns the form that a line looks like. `None` for another one, and for that of a log.
pub(crate) fn form_of(line: &[u8]) -> Option<&'static str> {
    if line.starts_with(b"{") {
        return Some("JSON");
    }
    if line.starts_with(b"G:") {
        return Some("a line G: of a radio");
    }
    if is_wide(line) {
        return Some("UTF-16");
    }
    if is_of_protocol(line) {
        return Some("a line P or R of a radio");
    }
    for place in 0..line.len() {
        if begins_word(line, place) && is_group(line, place) {
            return form_of_group(line, place);
        }
    }
    None
}

/// Returns whether a line is of UTF-16: it begins with the mark, or each second one of its first bytes is 0.
fn is_wide(line: &[u8]) -> bool {
    if MARKS.iter().any(|mark| line.starts_with(mark)) {
        return true;
    }
    match line {
        [first, second, third, fourth, ..] => {
            let begins_low = *second == 0 && *fourth == 0 && *first != 0 && *third != 0;
            let begins_high = *first == 0 && *third == 0 && *second != 0 && *fourth != 0;
            begins_low || begins_high
        }
        _ => false,
    }
}

/// Returns whether a line is one of the protocol of XDR and TEF radios: P and a PI, or R, 12 or 16 digits and 2 more.
fn is_of_protocol(line: &[u8]) -> bool {
    let Some(digits) = line.get(1..) else {
        return false;
    };
    if !digits.iter().all(|byte| byte.is_ascii_hexdigit()) {
        return false;
    }
    match line.first() {
        Some(b'P') => digits.len() == 4,
        Some(b'R') => digits.len() == 14 || digits.len() == 18,
        _ => false,
    }
}

/// Returns whether a word begins at this place: nothing is before it, or a byte that separates words.
fn begins_word(line: &[u8], place: usize) -> bool {
    match place.checked_sub(1) {
        Some(before) => ends_word(line, before),
        None => true,
    }
}

/// Returns whether a word ends before this place: the line ends there, or a byte follows that separates words.
fn ends_word(line: &[u8], place: usize) -> bool {
    match line.get(place) {
        Some(byte) => is_between(*byte),
        None => true,
    }
}

/// Returns whether this byte separates words.
fn is_between(byte: u8) -> bool {
    b" \t,;".contains(&byte)
}

/// Returns whether a group begins at this place: in one word, or in four.
fn is_group(line: &[u8], place: usize) -> bool {
    is_word(line, place) || has_blocks(line, place)
}

/// Returns whether a group in one word is at this place.
fn is_word(line: &[u8], place: usize) -> bool {
    let end = place.saturating_add(WORD);
    match line.get(place..end) {
        Some(digits) => digits.iter().all(|byte| byte.is_ascii_hexdigit()) && ends_word(line, end),
        None => false,
    }
}

/// Returns whether four blocks begin at this place, each a word.
fn has_blocks(line: &[u8], place: usize) -> bool {
    let mut next = place;
    for _ in 0..COUNT {
        let Some(end) = block_end(line, next) else {
            return false;
        };
        next = end.saturating_add(between(line, end).len());
    }
    true
}

/// Returns where the block ends that begins at this place, with 0x or without. `None` if there is no block.
fn block_end(line: &[u8], place: usize) -> Option<usize> {
    let rest = line.get(place..)?;
    let begin = if has_prefix(rest) { 2 } else { 0 };
    if !is_block(rest.get(begin..)?) {
        return None;
    }
    let end = place.saturating_add(begin).saturating_add(4);
    if ends_word(line, end) {
        Some(end)
    } else {
        None
    }
}

/// Returns whether the bytes begin with 0x.
fn has_prefix(bytes: &[u8]) -> bool {
    bytes.starts_with(b"0x") || bytes.starts_with(b"0X")
}

/// Returns the bytes between two words, from this place on.
fn between(line: &[u8], place: usize) -> &[u8] {
    let Some(rest) = line.get(place..) else {
        return b"";
    };
    match rest.iter().position(|byte| !is_between(*byte)) {
        Some(count) => rest.get(..count).unwrap_or(rest),
        None => rest,
    }
}

/// Returns the form of a line with a group at this place. `None` if it is that of a log up to there.
fn form_of_group(line: &[u8], place: usize) -> Option<&'static str> {
    if place > 0 {
        let before = line.get(..place)?;
        let is_time = before.len() > LONG || before.contains(&b':') || before.contains(&b'.');
        return if is_time {
            Some("a group with its time before it")
        } else {
            None
        };
    }
    if is_word(line, place) {
        return Some("a group in one word");
    }
    if has_prefix(line) {
        return Some("a group with 0x before each block");
    }
    form_of_gap(between(line, block_end(line, place)?))
}

/// Returns the form of a group with these bytes between its first two blocks. `None` for one space.
fn form_of_gap(gap: &[u8]) -> Option<&'static str> {
    if gap.contains(&b',') {
        return Some("a group with commas between its blocks");
    }
    if gap.contains(&b';') {
        return Some("a group with semicolons between its blocks");
    }
    if gap.contains(&b'\t') {
        return Some("a group with tabs between its blocks");
    }
    if gap.len() > 1 {
        return Some("a group with more than one space between its blocks");
    }
    None
}
