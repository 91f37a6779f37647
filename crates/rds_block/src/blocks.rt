//! A received group as one number that holds its four blocks.
ghost use Rattle.std.specs.Prelude.{◌≡◌, ◌+◌, ◌*◌, ◌^◌, ◌<◌};
ghost use Rattle.std.specs.Int.{from_bool};

use crate::{Group, Place};
use std::marker::Model;
use std::simd::prelude::*;

/// A received group: its four blocks in one number, block 1 in the highest bits. Contracts see it as a `Group`.
///
/// Each method reads its field by a shift, so a group can be passed on without unpacking its fields.
#[derive(Clone, Copy)]
pub struct Blocks {
    bits: u64,
}

impl Model for Blocks {
    ghost use Rattle.rds_block.specs.declared.group.Group.{Group};
    ghost use Rattle.rds_block.specs.Bits.{bits_again, bits_of, group_in};

    ghost Value = { Group };

    ghost view = { λ b. group_in b.bits };

    ghost inverse = { λ g. record { bits = bits_of g } };

    ghost inverse_ok = { λ b h i. record { bits = bits_again b.bits i } };
}

impl Blocks {
    ghost use Rattle.rds_block.specs.Words.{AreWordsOf};

    /// Makes the group that has these four words.
    #[inline(always)]
    pub fn new(words: [u16; 4]) -> Blocks
        ensures words { AreWordsOf words result }
    {
        let [pi, second, c, d] = words;
        let lowest_first = u16x4::from_array([d, c, second, pi]).to_le_bytes();
        let [bits] = u64x1::from_le_bytes(lowest_first).to_array();
        Blocks { bits }
    }

    /// Packs the group of a slot. `None` if the slot has no group.
    #[inline(always)]
    pub fn of_slot(group: Option<Group>) -> Option<Blocks>
        ensures { result ≡ group }
    {
        Some(group?.blocks())
    }

    /// Returns the group with its fields unpacked.
    pub fn group(self) -> Group
        ensures same { result ≡ self }
    {
        Group {
            pi: self.pi(),
            number: Place::new((self.bits >> 44 & 0xF) as u8).unwrap(),
            version: self.bits >> 43 & 1 == 1,
            tp: self.bits >> 42 & 1 == 1,
            pty: Place::new((self.bits >> 37 & 0x1F) as u8).unwrap(),
            low: Place::new(self.low()).unwrap(),
            c: self.c(),
            d: self.d(),
        }
    }

    /// Returns the programme identification (PI).
    #[inline(always)]
    pub fn pi(self) -> u16
        ensures { result ≡ self.pi }
    {
        (self.bits >> 48) as u16
    }

    /// Returns the group type code: twice the number, plus one for version B.
    #[inline(always)]
    pub fn kind(self) -> u8
        ensures { result ≡ 2 * self.number + from_bool self.version }
    {
        (self.bits >> 43 & 0x1F) as u8
    }

    /// Returns the five low bits of block 2.
    #[inline(always)]
    pub fn low(self) -> u8
        ensures value { result ≡ self.low }
        ensures below { result < 32 }
    {
        (self.bits >> 32 & 0x1F) as u8
    }

    /// Returns block 3.
    #[inline(always)]
    pub fn c(self) -> u16
        ensures { result ≡ self.c }
    {
        (self.bits >> 16 & 0xFFFF) as u16
    }

    /// Returns block 4.
    #[inline(always)]
    pub fn d(self) -> u16
        ensures { result ≡ self.d }
    {
        (self.bits & 0xFFFF) as u16
    }

    /// Returns 37 bits: the five low bits of block 2, then block 3, then block 4.
    #[inline(always)]
    pub fn content(self) -> u64
        ensures value { result ≡ 2 ^ 32 * self.low + 2 ^ 16 * self.c + self.d }
        ensures third { self.c < 2 ^ 16 }
        ensures fourth { self.d < 2 ^ 16 }
    {
        self.bits & 0x1F_FFFF_FFFF
    }
}

impl Group {
    /// Unpacks the group of a slot. `None` if the slot has no group.
    pub fn of_slot(group: Option<Blocks>) -> Option<Group>
        ensures { result ≡ group }
    {
        Some(group?.group())
    }

    /// Returns the group packed into its four blocks.
    pub fn blocks(&self) -> Blocks
        ensures { result ≡ self.now }
    {
        Blocks::new(self.to_blocks())
    }
}
