//! The slots in which receivers of a log show no text, since no segment of one came for M slots, for a person. No contract
//! speaks of it.

use rds_block::Blocks;
use rds_fields::{Dwell, RADIOTEXT_CODE};

/// The slots so far to which no text segment of the programme came for M slots (this project's own rule). The slots
/// before the first segment are none of them.
#[derive(Clone, Copy)]
pub(crate) struct Pauses {
    pi: u16,
    dwell: Dwell,
    /// The slot of the newest text segment.
    newest: Option<u64>,
    /// The slots before that segment.
    slots: u64,
}

impl Pauses {
    /// Starts before the first slot.
    pub(crate) fn new(pi: u16, dwell: Dwell) -> Pauses {
        Pauses {
            pi,
            dwell,
            newest: None,
            slots: 0,
        }
    }

    /// Takes the group of a slot.
    #[inline(always)]
    pub(crate) fn take(&mut self, slot: u64, group: Option<Blocks>) {
        if let Some(group) = group
            && group.kind() == RADIOTEXT_CODE
            && group.pi() == self.pi
        {
            self.slots = self.before(slot);
            self.newest = Some(slot);
        }
    }

    /// Returns how many slots before this one were such slots, if no segment came since the newest one.
    pub(crate) fn before(&self, slot: u64) -> u64 {
        let Some(newest) = self.newest else {
            return 0;
        };
        let since = slot.saturating_sub(newest);
        self.slots
            .saturating_add(since.saturating_sub(u64::from(self.dwell.get())))
    }
}
