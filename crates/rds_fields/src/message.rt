//! The message of a group, read and written.
ghost use Rattle.std.specs.Prelude.{◌≡◌, ℕ, ◌+◌, ◌*◌, ◌/◌, ◌<◌, ◌↔◌, IsNone, IfSome};
ghost use Rattle.std.specs.Int.{from_bool};
ghost use Rattle.rds_block.specs.declared.group.Group.{Group};
ghost use Rattle.rds_fields.specs.Spells.{Carries};

use crate::{Head, RTPLUS_CODE, TagPair, one_message};
use rds_block::{Blocks, Group, Place};

/// The code of group type 2A, which carries RadioText.
pub const RADIOTEXT_CODE: u8 = 4;

/// The code of group type 3A, which carries announcements of an application.
pub const ANNOUNCEMENT_CODE: u8 = 6;

/// The code of group type 10A, which carries the programme type name.
pub const NAME_CODE: u8 = 20;

/// The message of a group (IEC 62106, groups 2A, 3A and 10A; IEC 62106-6, RadioText Plus in group 11A).
#[derive(Clone, Copy, Debug, PartialEq, Eq)]
pub enum Message {
    /// A text segment: four characters from `4 * address` on, and the A/B flag, which changes with the text.
    Text {
        flag: bool,
        address: Place<16>,
        bytes: [u8; 4],
    },
    /// A segment of the programme type name: four characters from `4 * address` on, and the flag, which changes with
    /// the name.
    Name {
        flag: bool,
        address: Place<2>,
        bytes: [u8; 4],
    },
    /// An announcement: the application `aid` uses groups of the type `code`, which is twice the group's number, plus
    /// one for version B. `bits` belong to the application.
    Announce {
        code: Place<32>,
        bits: u16,
        aid: u16,
    },
    /// Two tags, which mark pieces of the text.
    Tags(TagPair),
    /// Any other group.
    Other,
}

impl Message {
    ghost use Rattle.rds_fields.specs.declared.message.Message.{Message};
    ghost use Rattle.rds_fields.specs.Spells.{Spells};
    ghost use Rattle.rds_block.specs.Words.{AreWordsOf, words_of};
    ghost use Rattle.rds_fields.specs.Canonical.{IsWritten};

    /// Returns the one message that the group spells. Two things are not read: bits 3 to 1 of block 2 in a group 10A,
    /// and the start and length marker of a tag of class 0.
    #[inline(always)]
    pub fn of(group: &Group) -> Message
        ensures spelled { Spells result group.now }
        ensures only { (m : Message) → Spells m group.now → m ≡ result }
    {
        Message::of_blocks(group.blocks())
    }

    /// Does the same as [`of`](Self::of) for a group as its blocks.
    #[inline(always)]
    pub fn of_blocks(group: Blocks) -> Message
        ensures spelled { Spells result group }
        ensures only { (m : Message) → Spells m group → m ≡ result }
    {
        // Prover: a call of a law, which gives the clause `only` (PROVER.md, "Idioms").
        one_message();
        match group.kind() {
            RADIOTEXT_CODE => Message::Text {
                flag: flag_in(group.low()),
                address: Place::new(group.low() & 0x0F).unwrap(),
                bytes: bytes_of(group.c(), group.d()),
            },
            NAME_CODE => Message::Name {
                flag: flag_in(group.low()),
                address: Place::new(group.low() & 1).unwrap(),
                bytes: bytes_of(group.c(), group.d()),
            },
            ANNOUNCEMENT_CODE => Message::Announce {
                code: Place::new(group.low()).unwrap(),
                bits: group.c(),
                aid: group.d(),
            },
            RTPLUS_CODE => Message::Tags(TagPair::from_bits(group.content())),
            _ => Message::Other,
        }
    }

    /// Returns the group that is written for the message with this head. `None` for `Other`, which many groups spell.
    #[inline(always)]
    pub fn group(&self, head: Head) -> Option<Group>
        ensures written { IfSome result (IsWritten self.now head) }
        ensures one { IfSome result (λ g. (h : Group) → IsWritten self.now head h → h ≡ g) }
        ensures read_again { IfSome result (λ g. (m : Message) → Spells m g → m ≡ self.now) }
        ensures none { IsNone result ↔ (self.now ≡ Message.Other) }
        ensures places { IfSome result (λ g. AreWordsOf (words_of g) g) }
    {
        match *self {
            Message::Text {
                flag,
                address,
                bytes,
            } => {
                let (c, d) = blocks_of(bytes);
                Some(head.group_of(RADIOTEXT_CODE, low_of(flag, address.get()), c, d))
            }
            Message::Name {
                flag,
                address,
                bytes,
            } => {
                let (c, d) = blocks_of(bytes);
                Some(head.group_of(NAME_CODE, low_of(flag, address.get()), c, d))
            }
            Message::Announce { code, bits, aid } => {
                Some(head.group_of(ANNOUNCEMENT_CODE, code.get(), bits, aid))
            }
            Message::Tags(pair) => {
                let (low, c, d) = pair.to_blocks();
                Some(head.group_of(RTPLUS_CODE, low, c, d))
            }
            Message::Other => None,
        }
    }
}

/// Returns the A/B flag, the highest of the five low bits of block 2.
fn flag_in(low: u8) -> bool
    requires { low < 32 }
    ensures { from_bool result ≡ low / 16 }
{
    low >> 4 == 1
}

/// Returns the five low bits of block 2: the flag above a four-bit address.
fn low_of(flag: bool, address: u8) -> u8
    requires { address < 16 }
    ensures { result ≡ 16 * from_bool flag + address }
{
    u8::from(flag) << 4 | address
}

/// Packs four bytes into two words, high byte first.
fn blocks_of(bytes: [u8; 4]) -> (u16, u16)
    ensures { Carries result.0 result.1 bytes }
{
    let [first, second, third, fourth] = bytes;
    (
        u16::from(first) << 8 | u16::from(second),
        u16::from(third) << 8 | u16::from(fourth),
    )
}

/// Unpacks two words into four bytes, high byte first.
fn bytes_of(c: u16, d: u16) -> [u8; 4]
    ensures { Carries c d result }
{
    [
        (c >> 8) as u8,
        (c & 0xFF) as u8,
        (d >> 8) as u8,
        (d & 0xFF) as u8,
    ]
}
