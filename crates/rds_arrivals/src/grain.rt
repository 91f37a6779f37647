//! The grain, by how much times may be off.
ghost use Rattle.std.specs.Prelude.{◌≡◌, ◌≤◌, ◌*◌, ◌↔◌, IsNone, IfSome};
ghost use Rattle.rds_arrivals.specs.Arrivals.{nineteen_slots};

use rds_block::Place;
use std::marker::Model;

/// The most microseconds of a grain: a slot has 87,578 and 18/19.
const MOST: u32 = 87_578;

/// The grain, less than a slot: times may be off by so many microseconds (this project's own rule).
#[derive(Clone, Copy)]
pub struct Grain {
    microseconds: u32,
}

impl Model for Grain {
    ghost use Rattle.std.specs.Prelude.{ℕ, ◌<◌, ◌*◌};
    ghost use Rattle.rds_arrivals.specs.Arrivals.{nineteen_slots};

    ghost Value = { ℕ };

    ghost view = { λ g. g.microseconds };

    ghost invariant = { λ g. 19 * g.microseconds < nineteen_slots };

    ghost inverse = { λ n. record { microseconds = n } };
}

impl Grain {
    /// Makes the grain of this many microseconds. `None` for a slot or more.
    pub fn new(microseconds: u32) -> Option<Self>
        ensures none { IsNone result ↔ (nineteen_slots ≤ 19 * microseconds) }
        ensures value { IfSome result (λ grain. grain ≡ microseconds) }
    {
        if microseconds > MOST {
            return None;
        }
        Some(Grain { microseconds })
    }

    /// Makes the grain of this many milliseconds.
    pub fn of_milliseconds(number: Place<88>) -> Self
        ensures { result ≡ 1000 * number }
    {
        Grain {
            microseconds: 1000 * u32::from(number.get()),
        }
    }

    /// Returns the number of microseconds.
    pub fn get(self) -> u32
        ensures { result ≡ self }
    {
        self.microseconds
    }
}
