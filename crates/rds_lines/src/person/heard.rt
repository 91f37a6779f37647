//! The programmes of the groups of a log, for a person. No contract says that these are the groups of the log. A group
//! type is that of the group with its tags in 11A, as `TagGroup` exchanges it.

use crate::log_line::BLOCKS;
use crate::source::Source;
use rds_block::Blocks;
use rds_fields::{ANNOUNCEMENT_CODE, Message, RTPLUS_AID, RTPLUS_CODE};
use rds_io::word_at;

/// How many groups of each type the wanted programme has (this project's own rule).
#[derive(Clone, Copy)]
pub struct GroupCounts {
    counts: [u64; 32],
}

impl GroupCounts {
    /// Starts before the first group.
    pub(crate) fn new() -> GroupCounts {
        GroupCounts { counts: [0; 32] }
    }

    /// Counts a group.
    #[inline(always)]
    fn add(&mut self, group: Blocks) {
        if let Some(count) = self.counts.get_mut(usize::from(group.kind())) {
            *count = count.wrapping_add(1);
        }
    }

    /// Returns how many groups were counted, of all types.
    pub fn total(&self) -> u64 {
        let mut sum = 0u64;
        for count in self.counts {
            sum = sum.wrapping_add(count);
        }
        sum
    }

    /// Returns the number that was counted of a group type, given as five bits: the number, and 1 for version B.
    pub fn of(&self, kind: u8) -> u64 {
        match self.counts.get(usize::from(kind)) {
            Some(count) => *count,
            None => 0,
        }
    }
}

/// Which application has which group type by the newest groups 3A of a log (this project's own rule).
#[derive(Clone, Copy)]
pub struct Announced {
    /// The group type of RadioText Plus, as five bits.
    pub rtplus: Option<u8>,
    /// The application of the groups that are read as tags.
    pub in_11a: Option<u16>,
}

impl Announced {
    /// Starts before the first group.
    fn new() -> Announced {
        Announced {
            rtplus: None,
            in_11a: None,
        }
    }

    /// Takes a group 3A.
    // Cold path.
    #[inline(never)]
    fn take(&mut self, group: Blocks) {
        let Message::Announce { code, aid, .. } = Message::of_blocks(group) else {
            return;
        };
        if aid == RTPLUS_AID {
            self.rtplus = Some(code.get());
        }
        if code.get() == RTPLUS_CODE {
            self.in_11a = Some(aid);
        }
    }
}

/// The programmes of a log's groups, for a person who gave the PI of another programme (this project's own rule).
#[derive(Clone, Copy)]
pub struct Heard {
    /// The groups of the wanted programme.
    pub counts: GroupCounts,
    /// The applications that it announces.
    pub announced: Announced,
    /// The number of its groups with one lost block of the last three: lost slots.
    pub damaged: u64,
    /// Whether a group of the wanted programme was read. If so, the fields after this one mean nothing.
    pub wanted: bool,
    /// The number of groups that were read, of any programme.
    pub groups: u64,
    /// The PI of the first group.
    pub first: Option<u16>,
    /// The number of groups with this PI.
    pub of_first: u64,
}

impl Heard {
    /// Starts before the first line.
    pub fn new() -> Heard {
        Heard {
            counts: GroupCounts::new(),
            announced: Announced::new(),
            damaged: 0,
            wanted: false,
            groups: 0,
            first: None,
            of_first: 0,
        }
    }

    /// Takes a slot, with tags in group 11A. Counts its group, if it is of the wanted programme.
    #[inline(always)]
    pub fn slot(&mut self, pi: u16, slot: Option<Blocks>) {
        let Some(group) = slot else {
            return;
        };
        let own = group.pi();
        if own == pi {
            if group.kind() == ANNOUNCEMENT_CODE {
                self.announced.take(group);
            }
            self.counts.add(group);
        }
        if !self.wanted {
            self.look(pi, own);
        }
    }

    /// Takes the slot of the line that this source read last. Counts it if it is a lost one, and its line has all
    /// blocks of a group of the wanted programme but one of the last three.
    #[inline(always)]
    pub fn lost(&mut self, pi: u16, slot: Option<Blocks>, source: &Source) {
        if slot.is_some() {
            return;
        }
        let line = source.start();
        // Without its first block a line is of no programme.
        if let Some(b'-') = line.first() {
            return;
        }
        self.damage(pi, line);
    }

    /// Takes the first bytes of a slot without a group.
    // Cold path.
    #[inline(never)]
    fn damage(&mut self, pi: u16, line: &[u8]) {
        if line.len() < BLOCKS || word_at(line, 0) != Some(pi) {
            return;
        }
        let others = (word_at(line, 5), word_at(line, 10), word_at(line, 15));
        if let (None, Some(_), Some(_))
        | (Some(_), None, Some(_))
        | (Some(_), Some(_), None) = others
        {
            self.damaged = self.damaged.saturating_add(1);
        }
    }

    /// Takes a group of this programme, while no group of the wanted programme was read.
    // Cold path.
    #[inline(never)]
    fn look(&mut self, pi: u16, own: u16) {
        self.wanted = own == pi;
        self.groups = self.groups.saturating_add(1);
        match self.first {
            None => {
                self.first = Some(own);
                self.of_first = 1;
            }
            Some(first) if first == own => self.of_first = self.of_first.saturating_add(1),
            Some(_) => {}
        }
    }
}
