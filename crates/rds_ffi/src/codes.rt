//! The codes that calls return. Contracts use their names in C, from `specs/Codes`.

/// The number of this interface. It changes with every size, offset, code or call of the C header.
pub(crate) const ABI: u32 = 10;

/// The times do not tell how many slots were lost.
pub(crate) const UNKNOWN: u32 = u32::MAX;

/// Success. For a receiver's slot: the view did not change. For a tick: no group is sent.
pub(crate) const OK: u32 = 0;

/// The view of a receiver may have changed.
pub(crate) const CHANGED: u32 = 1;

/// A group is sent in the slot.
pub(crate) const SENT: u32 = 1;

/// An argument is out of its range.
pub(crate) const BAD_ARGUMENT: u32 = 2;

/// The encoder is silent after a restart.
pub(crate) const SILENT: u32 = 3;

/// The text or the name before this one is still held.
pub(crate) const HELD: u32 = 4;

/// No text is on air for the tags.
pub(crate) const NO_TEXT: u32 = 5;

/// The first tag does not end in the text on air.
pub(crate) const OUT_OF_TEXT_1: u32 = 6;

/// The second tag does not end in the text on air.
pub(crate) const OUT_OF_TEXT_2: u32 = 7;

/// A text has over 64 bytes, or a name over 8.
pub(crate) const TOO_LONG: u32 = 8;

/// A text or a name may not contain this byte.
pub(crate) const BAD_BYTE: u32 = 9;

/// The numbers are not a valid pair of tags.
pub(crate) const BAD_TAGS: u32 = 10;

/// The bytes are not UTF-8.
pub(crate) const NOT_UTF8: u32 = 11;

/// A backslash does not begin an escape.
pub(crate) const BAD_ESCAPE: u32 = 12;

/// The RDS character table does not have this character.
pub(crate) const NO_CHARACTER: u32 = 13;

/// The output does not fit.
pub(crate) const NO_ROOM: u32 = 14;

/// A flag of an audit: the station was on air before the log began.
pub(crate) const AUDIT_RUNNING: u32 = 1;

/// A flag of an audit: texts may have padding.
pub(crate) const AUDIT_PADDED: u32 = 2;

/// All flags of an audit.
pub(crate) const ALL_FLAGS: u32 = 3;
