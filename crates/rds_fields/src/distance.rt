//! The spacing d of a station.
ghost use Rattle.std.specs.Prelude.{◌≡◌, ◌+◌, ◌<◌, ◌≤◌};

use crate::{Dwell, Late};
use std::marker::Model;

/// The spacing d of a station, 1 to 66813 slots: the dwell M of its receivers plus the lateness K, and W - 1 slots more
/// if they show only what they heard twice within W slots. No receiver joins a segment to the one before it if they
/// were sent d slots or more apart (this project's own rule).
#[derive(Clone, Copy)]
pub struct Distance {
    slots: u32,
}

impl Model for Distance {
    ghost use Rattle.std.specs.Prelude.{ℕ, ◌<◌, ◌≤◌};

    ghost Value = { ℕ };

    ghost view = { λ s. s.slots };

    ghost invariant = { λ s. (0 < s.slots) × (s.slots ≤ 66813) };

    ghost inverse = { λ n. record { slots = n } };
}

impl Distance {
    /// Makes the distance for this dwell and this lateness, without a window.
    pub fn new(dwell: Dwell, late: Late) -> Distance
        ensures { result ≡ dwell + late }
    {
        Distance {
            slots: u32::from(dwell.get()) + u32::from(late.get()),
        }
    }

    /// Makes the distance of this many slots. Less than 1 gives 1, and more than 66813 gives 66813.
    pub fn restore(slots: u32) -> Distance
        ensures { 0 < slots → slots ≤ 66813 → result ≡ slots }
    {
        Distance {
            slots: slots.clamp(1, 66813),
        }
    }

    /// Returns the number of slots.
    pub fn get(self) -> u32
        ensures value { result ≡ self }
        ensures some { 0 < result }
        ensures most { result ≤ 66813 }
    {
        self.slots
    }
}
