//! Why a receiver shows no text, for a person: none that came was complete. No contract speaks of it.

use rds_assembly::CARRIAGE_RETURN;
use rds_audit::{StoredCell, is_complete_text};
use rds_block::Blocks;
use rds_fields::{Dwell, Message, RADIOTEXT_CODE};

/// A text of which some segments came.
#[derive(Clone, Copy)]
struct Begun {
    flag: bool,
    cells: [StoredCell; 16],
    /// The slot of the newest segment.
    last: u64,
}

impl Begun {
    /// Returns a text before its first segment.
    fn new(flag: bool) -> Begun {
        Begun {
            flag,
            cells: [StoredCell::none(); 16],
            last: 0,
        }
    }

    /// Returns whether no segment has a carriage return.
    fn is_endless(&self) -> bool {
        for cell in self.cells {
            if cell.is_sent != 0 && cell.bytes.contains(&CARRIAGE_RETURN) {
                return false;
            }
        }
        true
    }
}

/// The texts that came before the first complete one (this project's own rule). A flip of the A/B flag begins a text, and
/// so does a pause of M slots.
#[derive(Clone, Copy)]
pub struct IncompleteTexts {
    /// How many came.
    pub texts: u64,
    /// Whether a complete one came. Then nothing more is counted.
    pub is_over: bool,
    /// How many before the current one have no carriage return.
    endless: u64,
    dwell: u64,
    current: Option<Begun>,
}

impl IncompleteTexts {
    /// Starts before the first slot, for a receiver of this dwell.
    pub(crate) fn new(dwell: Dwell) -> IncompleteTexts {
        IncompleteTexts {
            texts: 0,
            is_over: false,
            endless: 0,
            dwell: u64::from(dwell.get()),
            current: None,
        }
    }

    /// Takes the group of this slot, if one of the wanted programme came.
    #[inline(always)]
    pub(crate) fn note(&mut self, pi: u16, slot: u64, group: Option<Blocks>) {
        if self.is_over {
            return;
        }
        if let Some(group) = group
            && group.kind() == RADIOTEXT_CODE
            && group.pi() == pi
        {
            self.take(slot, group);
        }
    }

    /// Takes a group of a text.
    // Cold path.
    #[inline(never)]
    fn take(&mut self, slot: u64, group: Blocks) {
        let Message::Text {
            flag,
            address,
            bytes,
        } = Message::of_blocks(group)
        else {
            return;
        };
        let mut text = self.text_of(slot, flag);
        text.last = slot;
        if let Some(cell) = text.cells.get_mut(usize::from(address.get())) {
            *cell = StoredCell { bytes, is_sent: 1 };
        }
        self.is_over = is_complete_text(&text.cells);
        self.current = Some(text);
    }

    /// Returns the text that a segment with this flag belongs to, and counts it if it is a new one.
    fn text_of(&mut self, slot: u64, flag: bool) -> Begun {
        if let Some(text) = self.current
            && text.flag == flag
            && slot.saturating_sub(text.last) < self.dwell
        {
            return text;
        }
        self.endless = self.endless();
        self.texts = self.texts.saturating_add(1);
        Begun::new(flag)
    }

    /// Returns how many have no carriage return.
    pub fn endless(&self) -> u64 {
        let current = match self.current {
            Some(text) => u64::from(text.is_endless()),
            None => 0,
        };
        self.endless.saturating_add(current)
    }
}
