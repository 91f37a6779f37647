//! A group as its fields, converted from and to four words.

use crate::{Blocks, Place};

/// A group as its fields (IEC 62106, group structure). The meaning of `low`, `c` and `d` depends on the group type,
/// that is, on `number` and `version`.
#[derive(Clone, Copy, Debug, PartialEq, Eq)]
pub struct Group {
    /// The programme identification (PI) of the station.
    pub pi: u16,
    /// The group type number.
    pub number: Place<16>,
    /// The group type version: `false` is A, `true` is B.
    pub version: bool,
    /// The traffic programme flag.
    pub tp: bool,
    /// The programme type.
    pub pty: Place<32>,
    /// The five low bits of block 2.
    pub low: Place<32>,
    /// Block 3.
    pub c: u16,
    /// Block 4.
    pub d: u16,
}

impl Group {
    ghost use Rattle.rds_block.specs.Words.{AreWordsOf};

    /// Returns the group that has these four words. Any four words make a group.
    pub fn from_blocks(blocks: [u16; 4]) -> Group
        ensures words { AreWordsOf blocks result }
    {
        Blocks::new(blocks).group()
    }

    /// Returns the four words of the group.
    pub fn to_blocks(&self) -> [u16; 4]
        ensures words { AreWordsOf result self.now }
    {
        let second = u16::from(self.number.get()) << 12
            | u16::from(self.version) << 11
            | u16::from(self.tp) << 10
            | u16::from(self.pty.get()) << 5
            | u16::from(self.low.get());
        [self.pi, second, self.c, self.d]
    }
}
