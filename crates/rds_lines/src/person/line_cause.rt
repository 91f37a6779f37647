//! The reasons why a line of a log is malformed, for a person. No contract speaks of them.

use crate::log_line::{block_at, content_length, is_skipped};
use crate::person::line_form::form_of;
use memchr::memchr;
use thiserror::Error;

/// The number of blocks in a slot line.
const COUNT: usize = 4;

/// The byte order mark of UTF-8.
const MARK: &[u8] = b"\xEF\xBB\xBF";

/// The first bytes of a compressed file, the program that compresses so, and the one that undoes it.
const PACKED: [(&[u8], &str, &str); 4] = [
    (b"\x1F\x8B", "gzip", "gunzip"),
    (b"PK\x03\x04", "zip", "unzip"),
    (b"BZh", "bzip2", "bunzip2"),
    (b"\xFD7zXZ\x00", "xz", "unxz"),
];

/// The first mistake in a line, from its left (this project's own rule). Blocks count from 1, lengths are in bytes.
#[derive(Clone, Copy, Debug, PartialEq, Eq, Error)]
pub enum LineCause {
    /// The line looks like one of another form.
    #[error("it looks like {0}: rdsrt-lines reads it")]
    Form(&'static str),
    /// The line begins with the byte order mark of UTF-8.
    #[error("it begins with a byte order mark: save the log as plain ASCII")]
    Mark,
    /// The line begins as a file does that this program compressed. The other program undoes it.
    #[error("the file is compressed by {0}: {1} it first")]
    Packed(&'static str, &'static str),
    /// A comma comes before any space, as in a row of a script.
    #[error("it looks like a row of a script, which encode and sim read")]
    Script,
    /// The line has no space.
    #[error("it has no space")]
    NoSpace,
    /// The line ends after this block.
    #[error("it ends after block {0}")]
    EndsAfter(usize),
    /// This block has this many bytes.
    #[error("block {0} has {1} characters, expected 4")]
    Length(usize, usize),
    /// This block is neither four hexadecimal digits nor four dashes.
    #[error("block {0} has a character that is not a hexadecimal digit")]
    Digit(usize),
}

/// Returns why a line is malformed. `None` for a skipped line, and for one whose four blocks are good.
#[inline(never)]
pub(crate) fn cause_of(line: &[u8]) -> Option<LineCause> {
    let length = content_length(line);
    if is_skipped(line, length) {
        return None;
    }
    let content = &line[..length];
    match form_cause(content) {
        Some(cause) => Some(cause),
        None => blocks_cause(content),
    }
}

/// Returns the cause if the line has another form than a slot line.
fn form_cause(line: &[u8]) -> Option<LineCause> {
    if line.starts_with(MARK) {
        return Some(LineCause::Mark);
    }
    if let Some(cause) = packed_cause(line) {
        return Some(cause);
    }
    if let Some(form) = form_of(line) {
        return Some(LineCause::Form(form));
    }
    match (memchr(b',', line), memchr(b' ', line)) {
        (Some(comma), Some(space)) if comma < space => Some(LineCause::Script),
        (_, Some(_)) => None,
        (Some(_), None) => Some(LineCause::Script),
        (None, None) => Some(LineCause::NoSpace),
    }
}

/// Returns the cause if the line begins as a compressed file does.
fn packed_cause(line: &[u8]) -> Option<LineCause> {
    for (begin, packer, unpacker) in PACKED {
        if line.starts_with(begin) {
            return Some(LineCause::Packed(packer, unpacker));
        }
    }
    None
}

/// Returns the mistake in the first malformed block. `None` if all four are good.
fn blocks_cause(content: &[u8]) -> Option<LineCause> {
    for block in 0..COUNT {
        if let Some(cause) = block_cause(content, block) {
            return Some(cause);
        }
    }
    None
}

/// Returns the mistake in this block. `None` if it is good. The blocks before it are good.
fn block_cause(content: &[u8], block: usize) -> Option<LineCause> {
    let place = block.saturating_mul(5);
    let Some(rest) = content.get(place..) else {
        return Some(LineCause::EndsAfter(block));
    };
    match memchr(b' ', rest).unwrap_or(rest.len()) {
        4 if is_block(rest) => None,
        4 => Some(LineCause::Digit(block.saturating_add(1))),
        count => Some(LineCause::Length(block.saturating_add(1), count)),
    }
}

/// Returns whether the bytes begin with four digits or four dashes.
pub(crate) fn is_block(bytes: &[u8]) -> bool {
    bytes.len() >= 4 && block_at(bytes, 0).is_some()
}
