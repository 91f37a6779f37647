//! The group type of RadioText Plus.
ghost use Rattle.std.specs.Prelude.{◌≡◌, ℕ, ◌*◌, ◌<◌, ◌↔◌, IfSome, IsSome};
ghost use Rattle.rds_fields.specs.TagGroup.{MayCarryTags, exchanged, exchanged_in, exchanged_low, other_of};

use crate::RTPLUS_CODE;
use rds_block::{Blocks, Group, Place};
use std::marker::Model;

/// The number of group type 11A, the usual one of RadioText Plus.
const USUAL: u8 = 11;

/// The number of group type 3A, which gives an application its group type.
const ANNOUNCEMENT: u8 = 3;

/// A group type of version A that RadioText Plus may have: 5A to 9A, or 11A to 13A (IEC 62106, group 3A).
///
/// A station says in its groups 3A which one it is. All else here reads and writes the tags in 11A. So at the border,
/// where a group comes in or goes out, 11A and this type are exchanged, which is its own inverse.
#[derive(Clone, Copy, Debug, PartialEq, Eq)]
pub struct TagGroup {
    number: u8,
}

impl Model for TagGroup {
    ghost Value = { ℕ };

    ghost view = { λ t. t.number };

    ghost invariant = { λ t. MayCarryTags t.number };

    ghost inverse = { λ n. record { number = n } };
}

impl TagGroup {
    /// Returns 11A.
    pub fn usual() -> TagGroup
        ensures { result ≡ 11 }
    {
        TagGroup { number: USUAL }
    }

    /// Makes the group type of version A with this number. `None` if the tags may not have it.
    pub fn new(number: u8) -> Option<TagGroup>
        ensures range { IsSome result ↔ MayCarryTags number }
        ensures value { IfSome result (λ it. it ≡ number) }
    {
        if number < 5 || number > 13 || number == 10 {
            return None;
        }
        Some(TagGroup { number })
    }

    /// Returns the number of the group type.
    pub fn number(self) -> u8
        ensures value { result ≡ self }
        ensures range { MayCarryTags result }
    {
        self.number
    }

    /// Returns the group with this type and 11A exchanged: its own type, and the one that a 3A gives to an application
    /// (this project's own rule).
    pub fn exchange(self, group: Group) -> Group
        ensures { result ≡ exchanged self group }
    {
        if group.version {
            return group;
        }
        let number = other_of(USUAL, self.number, group.number.get());
        let low = self.exchange_low(group.number.get(), group.low.get());
        Group {
            number: Place::new(number).unwrap(),
            low: Place::new(low).unwrap(),
            ..group
        }
    }

    /// Does the same to the group of a slot that is written.
    pub fn exchange_sent(self, slot: Option<Group>) -> Option<Group>
        ensures { result ≡ exchanged_in self slot }
    {
        if self.number == USUAL {
            return slot;
        }
        Some(self.exchange(slot?))
    }

    /// Does the same to the group of a slot that is read.
    #[inline(always)]
    pub fn exchange_read(self, slot: Option<Blocks>) -> Option<Blocks>
        ensures { result ≡ exchanged_in self slot }
    {
        if self.number == USUAL {
            return slot;
        }
        self.exchange_packed(slot)
    }

    /// Unpacks the group of a slot for the exchange.
    // Cold path.
    #[inline(never)]
    fn exchange_packed(self, slot: Option<Blocks>) -> Option<Blocks>
        ensures { result ≡ exchanged_in self slot }
    {
        Some(self.exchange(slot?.group()).blocks())
    }

    /// Returns the code of the other group type for that of 11A or of this type, and any other code as it is. The code
    /// is twice the number, plus one for version B.
    pub fn exchange_code(self, code: u8) -> u8
        ensures { result ≡ other_of 22 (2 * self) code }
    {
        other_of(RTPLUS_CODE, self.number << 1, code)
    }

    /// Exchanges the group type that the five low bits of a 3A are. Those of another group stay.
    fn exchange_low(self, number: u8, low: u8) -> u8
        requires { low < 32 }
        ensures low { result ≡ exchanged_low self number low }
        ensures below { result < 32 }
    {
        if number != ANNOUNCEMENT {
            return low;
        }
        self.exchange_code(low)
    }
}

/// Returns the other one of `a` and `b` for one of them, and any other number as it is.
fn other_of(a: u8, b: u8, n: u8) -> u8
    ensures value { result ≡ other_of a b n }
    ensures below { (most : ℕ) → a < most → b < most → n < most → result < most }
{
    if n == a {
        b
    } else if n == b {
        a
    } else {
        n
    }
}
