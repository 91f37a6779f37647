//! Tags as plain numbers, for a program that stores them.
ghost use Rattle.std.specs.Prelude.{◌≡◌, ◌↔◌, IsSome, IsTrue, Option};
ghost use Rattle.rds_fields.specs.Stored.{IsStoredPair, fields_stored, pair_stored, tag_stored};
ghost use Rattle.rds_fields.specs.Tag.{IsPair, IsTag};

use crate::pair::TagPair;
use crate::tag::Tag;

/// A tag as its three numbers (IEC 62106-6, RadioText Plus).
#[repr(C)]
#[derive(Clone, Copy)]
pub struct StoredTag {
    pub class: u8,
    /// The start: the place of the first character, from 0.
    pub start: u8,
    /// The length marker: the number of characters less one.
    pub extra: u8,
}

/// A pair of tags as plain numbers. If `is_there` is 0, there is no pair. A bit is 0 for no and any other number for
/// yes.
#[repr(C)]
#[derive(Clone, Copy)]
pub struct StoredPair {
    pub toggle: u8,
    pub running: u8,
    pub one: StoredTag,
    pub two: StoredTag,
    pub is_there: u8,
}

impl StoredPair {
    /// Makes a `StoredPair` without a pair.
    pub fn none() -> StoredPair
        ensures same { pair_stored result ≡ Option.None }
        ensures good { IsStoredPair result }
    {
        let dummy = StoredTag {
            class: 0,
            start: 0,
            extra: 0,
        };
        StoredPair {
            one: dummy,
            two: dummy,
            toggle: 0,
            running: 0,
            is_there: 0,
        }
    }

    /// Stores the pair, if there is one.
    pub fn of(pair: Option<TagPair>) -> StoredPair
        ensures same { pair_stored result ≡ pair }
        ensures good { IsStoredPair result }
    {
        let Some(pair) = pair else {
            return StoredPair::none();
        };
        StoredPair {
            one: stored_tag(pair.one()),
            two: stored_tag(pair.two()),
            toggle: u8::from(pair.toggle()),
            running: u8::from(pair.running()),
            is_there: 1,
        }
    }

    /// Returns whether the numbers are those of a pair or of none.
    pub fn is_valid(&self) -> bool
        ensures { IsTrue result ↔ IsStoredPair self.now }
    {
        self.is_there == 0 || self.pair().is_some()
    }

    /// Returns the stored pair. `None` if no pair is held, or if the numbers are not valid.
    pub fn pair(&self) -> Option<TagPair>
        ensures value { IsStoredPair self.now → result ≡ pair_stored self.now }
        ensures good { IsSome result → IsStoredPair self.now }
    {
        if self.is_there == 0 {
            return None;
        }
        let Ok(one) = Tag::new(self.one.class, self.one.start, self.one.extra) else {
            return None;
        };
        let Ok(two) = Tag::new(self.two.class, self.two.start, self.two.extra) else {
            return None;
        };
        let Ok(pair) = TagPair::new(self.toggle != 0, self.running != 0, one, two) else {
            return None;
        };
        Some(pair)
    }
}

/// Stores the tag as its three numbers.
fn stored_tag(tag: Tag) -> StoredTag
    ensures same { tag_stored result ≡ tag }
    ensures good { IsTag (tag_stored result) }
{
    StoredTag {
        class: tag.class(),
        start: tag.start(),
        extra: tag.extra(),
    }
}
