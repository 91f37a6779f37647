//! The group type of RadioText Plus in the caller's blocks.
ghost use Rattle.std.specs.Prelude.{◌≡◌, ◌≢◌, ◌↔◌};
ghost use Rattle.rds_block.specs.declared.group.Group.{Group};
ghost use Rattle.rds_block.specs.Words.{AreWordsOf};
ghost use Rattle.rds_fields.specs.TagGroup.{MayCarryTags, exchanged};
ghost use Rattle.rds_ffi.specs.Codes.{RDSRT_BAD_ARGUMENT, RDSRT_OK};

use crate::codes;
use rds_block::Group;
use rds_fields::TagGroup;

/// Exchanges group type 11A and the one of version A with this number in the four blocks of a group: its own type, and
/// the one that a 3A gives to an application. The same call again exchanges them back.
///
/// # Errors
///
/// `RDSRT_BAD_ARGUMENT` and no change if RadioText Plus may not have that group type: it may have 5 to 9 and 11 to 13.
#[unsafe(no_mangle)]
pub extern "C" fn rdsrt_exchange_tag_group(number: u8, blocks: &mut [u16; 4]) -> u32
    ensures code { result ≡ RDSRT_OK ↔ MayCarryTags number }
    ensures exchanged { result ≡ RDSRT_OK → (group : Group) → AreWordsOf blocks.old group
        → AreWordsOf blocks.new (exchanged number group) }
    ensures bad { result ≢ RDSRT_OK → result ≡ RDSRT_BAD_ARGUMENT }
    ensures kept { result ≢ RDSRT_OK → blocks.new ≡ blocks.old }
{
    let Some(tags) = TagGroup::new(number) else {
        return codes::BAD_ARGUMENT;
    };
    *blocks = tags.exchange(Group::from_blocks(*blocks)).to_blocks();
    codes::OK
}
