//! The window W, a number of slots.

use rds_fields::Bounded;

/// The window W, 2 to 255 slots: a message is confirmed if the same one came less than W slots before (this project's
/// own rule). In a window of one slot nothing could come twice.
pub type Window = Bounded<2, 255>;
