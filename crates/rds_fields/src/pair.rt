//! The two tags of a RadioText Plus group, as fields and as 37 bits.
ghost use Rattle.std.specs.Prelude.{◌≡◌, ℕ, ◌+◌, ◌*◌, ◌^◌, ◌<◌, ◌≤◌, ◌↔◌, IsOk, IfOk, IfErr};

use crate::tag::{Tag, TagRefused};
use std::fmt;
use std::marker::Model;

/// One of the two tags of a pair.
#[derive(Clone, Copy, Debug, PartialEq, Eq)]
pub enum Which {
    One,
    Two,
}

/// Writes the place of the tag in its pair: `first` or `second`.
impl fmt::Display for Which {
    fn fmt<W: fmt::Write>(&self, f: &mut fmt::Formatter<W>) -> fmt::Result {
        f.write_str(match self {
            Which::One => "first",
            Which::Two => "second",
        })
    }
}

/// Two tags, and the two bits of the item that they belong to (IEC 62106-6, RadioText Plus).
#[derive(Clone, Copy, Debug, PartialEq, Eq)]
pub struct TagPair {
    toggle: bool,
    running: bool,
    one: Tag,
    two: Tag,
}

impl Model for TagPair {
    ghost use Rattle.rds_fields.specs.Tag.{PairFields, IsPair};

    ghost Value = { PairFields };

    ghost view = { λ p. record { toggle = p.toggle; running = p.running; one = p.one; two = p.two } };

    ghost invariant = { λ p. IsPair record { toggle = p.toggle; running = p.running; one = p.one; two = p.two } };

    ghost inverse = { λ v. record { toggle = v.toggle; running = v.running; one = v.one; two = v.two } };
}

impl TagPair {
    ghost use Rattle.rds_fields.specs.Bits.{Sent, SpellsPair, sent_of};
    ghost use Rattle.rds_fields.specs.Tag.{tag_in};

    /// Makes a pair. `Extra` if the second tag has over 32 characters: its length marker has only five bits.
    pub fn new(toggle: bool, running: bool, one: Tag, two: Tag) -> Result<TagPair, TagRefused>
        ensures fits { IsOk result ↔ (two.extra ≤ 31) }
        ensures refused { IfErr result (λ refused. refused ≡ TagRefused.Extra) }
        ensures value { IfOk result
            (λ pair. pair ≡ record { toggle = toggle; running = running; one = one; two = two }) }
    {
        if two.extra() > 31 {
            return Err(TagRefused::Extra);
        }
        Ok(TagPair {
            toggle,
            running,
            one,
            two,
        })
    }

    /// Returns the item toggle bit, which changes with each item.
    pub fn toggle(self) -> bool
        ensures { result ≡ self.toggle }
    {
        self.toggle
    }

    /// Returns the item running bit.
    pub fn running(self) -> bool
        ensures { result ≡ self.running }
    {
        self.running
    }

    /// Returns this tag of the two.
    pub fn tag(self, which: Which) -> Tag
        ensures { result ≡ tag_in which self }
    {
        match which {
            Which::One => self.one,
            Which::Two => self.two,
        }
    }

    /// Returns the first tag.
    pub fn one(self) -> Tag
        ensures { result ≡ self.one }
    {
        self.one
    }

    /// Returns the second tag.
    pub fn two(self) -> Tag
        ensures value { result ≡ self.two }
        ensures short { result.extra < 32 }
    {
        self.two
    }

    /// Returns the five low bits of block 2 and blocks 3 and 4 that are written for the pair.
    pub(crate) fn to_blocks(self) -> (u8, u16, u16)
        ensures { SpellsPair self (2 ^ 32 * result.0 + 2 ^ 16 * result.1 + result.2)
            (sent_of self) }
    {
        let bits = self.to_bits();
        (
            (bits >> 32) as u8,
            (bits >> 16 & 0xFFFF) as u16,
            (bits & 0xFFFF) as u16,
        )
    }

    /// Reads the pair from its 37 bits.
    pub(crate) fn from_bits(bits: u64) -> TagPair
        requires { bits < 2 ^ 37 }
        ensures { (s : Sent) × SpellsPair result bits s }
    {
        TagPair {
            toggle: bits >> 36 & 1 != 0,
            running: bits >> 35 & 1 != 0,
            one: Tag::read(
                (bits >> 29 & 63) as u8,
                (bits >> 23 & 63) as u8,
                (bits >> 17 & 63) as u8,
            ),
            two: Tag::read(
                (bits >> 11 & 63) as u8,
                (bits >> 5 & 63) as u8,
                (bits & 31) as u8,
            ),
        }
    }

    /// Returns the 37 bits that are written for the pair.
    fn to_bits(self) -> u64
        ensures { SpellsPair self result (sent_of self) }
    {
        u64::from(self.toggle) << 36
            | u64::from(self.running) << 35
            | u64::from(self.one.class()) << 29
            | u64::from(self.one.start()) << 23
            | u64::from(self.one.extra()) << 17
            | u64::from(self.two.class()) << 11
            | u64::from(self.two.start()) << 5
            | u64::from(self.two.extra())
    }
}
