//! Why no text or name has a segment, for a person.

use rds_assembly::{CARRIAGE_RETURN, is_text_byte};

/// Why no text, or no name, has a segment together with those before it (this project's own rule). Places count from 0.
/// No contract speaks of it.
#[derive(Clone, Copy, Debug, PartialEq, Eq)]
pub enum SegmentCause {
    /// A byte that no text or name has, and its place.
    Byte(u8, u8),
    /// A byte other than a space after the carriage return of the segment, and its place.
    AfterReturn(u8, u8),
    /// The segment is past the carriage return at this place.
    PastReturn(u8),
    /// The carriage return at this place comes before a segment that was sent.
    EarlyReturn(u8),
    /// The segments leave no place for the carriage return of a text with padding.
    NoReturn,
}

impl SegmentCause {
    /// Returns why no text has this segment, whose segments before it leave these lengths. Of a text with padding, the
    /// bytes behind the carriage return do not count.
    pub(crate) fn of_text(
        address: u8,
        bytes: [u8; 4],
        least: u8,
        most: u8,
        is_padded: bool,
    ) -> Option<SegmentCause> {
        let mut end: Option<u8> = None;
        for (place, byte) in (address.saturating_mul(4)..).zip(bytes) {
            if end.is_some() {
                if !is_padded && byte != b' ' {
                    return Some(SegmentCause::AfterReturn(byte, place));
                }
            } else if byte == CARRIAGE_RETURN {
                end = Some(place);
            } else if !is_text_byte(byte) {
                return Some(SegmentCause::Byte(byte, place));
            }
        }
        match end {
            _ if is_padded => Some(SegmentCause::NoReturn),
            Some(place) if place < least => Some(SegmentCause::EarlyReturn(place)),
            Some(_) | None => Some(SegmentCause::PastReturn(most)),
        }
    }

    /// Returns why no name has this segment.
    pub(crate) fn of_name(address: u8, bytes: [u8; 4]) -> Option<SegmentCause> {
        for (place, byte) in (address.saturating_mul(4)..).zip(bytes) {
            if byte < b' ' {
                return Some(SegmentCause::Byte(byte, place));
            }
        }
        None
    }
}
