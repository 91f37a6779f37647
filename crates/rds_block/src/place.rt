//! A number with a bound in its type.
ghost use Rattle.std.specs.Prelude.{◌≡◌, ℕ, ◌<◌, ◌↔◌, IsSome, IfSome};

use std::marker::Model;

/// A number below `N`: a field of a group, or the address of a segment.
#[derive(Clone, Copy, Debug, PartialEq, Eq)]
pub struct Place<const N: u8> {
    number: u8,
}

impl<const N: u8> Model for Place<N> {
    ghost Value = { ℕ };

    ghost view = { λ p. p.number };

    ghost invariant = { λ p. p.number < N };

    ghost inverse = { λ n. record { number = n } };
}

impl<const N: u8> Place<N> {
    /// Makes the place with this number. `None` if `number` is `N` or more.
    pub fn new(number: u8) -> Option<Self>
        ensures below { IsSome result ↔ (number < N) }
        ensures value { IfSome result (λ place. place ≡ number) }
    {
        if number < N {
            Some(Place { number })
        } else {
            None
        }
    }

    /// Returns the number.
    pub fn get(self) -> u8
        ensures value { result ≡ self.entry }
        ensures below { result < N }
    {
        self.number
    }
}
