//! Numbers of slots with their bounds in the type.
ghost use Rattle.std.specs.Prelude.{◌≡◌, ◌≤◌, ◌↔◌, IfSome, IsSome};

use std::marker::Model;

/// A number of slots from `LOW` to `HIGH`.
#[derive(Clone, Copy, Debug, PartialEq, Eq)]
pub struct Bounded<const LOW: u16, const HIGH: u16> {
    slots: u16,
}

/// The dwell M, 1 to 65535 slots: a receiver drops a text or name if no segment of it came for M slots. Sender and
/// receiver agree on it (this project's own rule).
pub type Dwell = Bounded<1, 65535>;

/// The lateness K, 0 to 1024 slots: a group reaches a receiver at most K slots late (this project's own rule).
pub type Late = Bounded<0, 1024>;

impl<const LOW: u16, const HIGH: u16> Model for Bounded<LOW, HIGH> {
    ghost use Rattle.std.specs.Prelude.{ℕ, ◌≤◌};

    ghost Value = { ℕ };

    ghost view = { λ b. b.slots };

    ghost invariant = { λ b. (LOW ≤ b.slots) × (b.slots ≤ HIGH) };

    ghost inverse = { λ n. record { slots = n } };
}

impl<const LOW: u16, const HIGH: u16> Bounded<LOW, HIGH> {
    /// Makes the number of this many slots. `None` below `LOW` and above `HIGH`.
    pub fn new(slots: u16) -> Option<Self>
        ensures range { IsSome result ↔ ((LOW ≤ slots) × (slots ≤ HIGH)) }
        ensures value { IfSome result (λ number. number ≡ slots) }
    {
        if slots < LOW || slots > HIGH {
            return None;
        }
        Some(Bounded { slots })
    }

    /// Returns the number of slots.
    pub fn get(self) -> u16
        ensures value { result ≡ self.entry }
        ensures least { LOW ≤ result }
        ensures most { result ≤ HIGH }
    {
        self.slots
    }
}

impl Dwell {
    /// Returns the longest dwell.
    pub fn longest() -> Self
        ensures { result ≡ 65535 }
    {
        Bounded { slots: 65535 }
    }
}
