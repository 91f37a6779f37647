//! A pair of tags as plain numbers.
ghost use Rattle.std.specs.Prelude.{◌≡◌, ◌↔◌, IfSome, IsSome};
ghost use Rattle.rds_ffi.specs.Tagged.{AreGiven, IsGiven, fields_of, pair_of};

use crate::view::RdsrtTag;
use rds_fields::{Tag, TagPair};

/// Two tags, and the two bits of the item that they are of.
#[repr(C)]
#[derive(Clone, Copy)]
pub struct RdsrtTags {
    pub one: RdsrtTag,
    pub two: RdsrtTag,
    pub toggle: u8,
    pub running: u8,
}

/// Makes a pair of tags from numbers. `None` if they are not valid.
pub(crate) fn pair_given(tags: &RdsrtTags) -> Option<TagPair>
    ensures given { IsSome result ↔ AreGiven tags.now }
    ensures value { IfSome result (λ pair. pair ≡ pair_of tags.now) }
{
    let one = tag_given(tags.one)?;
    let two = tag_given(tags.two)?;
    TagPair::new(tags.toggle != 0, tags.running != 0, one, two).ok()
}

/// Makes a tag from numbers. `None` if they are not valid.
fn tag_given(tag: RdsrtTag) -> Option<Tag>
    ensures given { IsSome result ↔ IsGiven tag }
    ensures value { IfSome result (λ is. is ≡ fields_of tag) }
{
    if (tag.content_type == 0) != (tag.length == 0) {
        return None;
    }
    Tag::new(tag.content_type, tag.start, tag.length.saturating_sub(1)).ok()
}
