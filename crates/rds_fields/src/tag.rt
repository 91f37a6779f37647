//! A tag of RadioText Plus.
ghost use Rattle.std.specs.Prelude.{◌≡◌, ℕ, ◌+◌, ◌<◌, ◌≤◌, ◌⊎◌, ◌↔◌, IfOk, IfSome, length, option_copied};

use std::marker::Model;
use thiserror::Error;

/// Why a tag or a pair of tags is not valid.
#[derive(Clone, Copy, Debug, PartialEq, Eq, Error)]
pub enum TagRefused {
    /// The class is over 63.
    #[error("the class is over 63")]
    Class,
    /// The start is over 63.
    #[error("the start is over 63")]
    Start,
    /// The length marker is over 63, or over 31 for the second tag of a pair.
    #[error("the length marker is over its bits")]
    Extra,
    /// The class is 0, and the start or the length marker is not 0.
    #[error("class 0 with a start or a length marker")]
    DummyNotZero,
}

/// A tag: a class, and the piece of the text that it marks (IEC 62106-6, RadioText Plus). Class 0 is the dummy, which
/// marks no piece. Its other fields are 0.
#[derive(Clone, Copy, Debug, PartialEq, Eq)]
pub struct Tag {
    class: u8,
    start: u8,
    extra: u8,
}

impl Model for Tag {
    ghost use Rattle.rds_fields.specs.Tag.{TagFields, IsTag};

    ghost Value = { TagFields };

    ghost view = { λ t. record { class = t.class; start = t.start; extra = t.extra } };

    ghost invariant = { λ t. IsTag record { class = t.class; start = t.start; extra = t.extra } };

    ghost inverse = { λ v. record { class = v.class; start = v.start; extra = v.extra } };
}

impl Tag {
    ghost use Rattle.rds_fields.specs.Bits.{IsRead};
    ghost use Rattle.rds_fields.specs.Tag.{end_of, ends_in, piece_in};

    /// Makes the tag of this class. `start` is the place of its first character, from 0, and `extra` the number of its
    /// characters less one.
    ///
    /// # Errors
    ///
    /// [`TagRefused`] if a field is out of range. The checks have the order of the variants of `TagRefused`.
    pub fn new(class: u8, start: u8, extra: u8) -> Result<Tag, TagRefused>
        ensures class_over { (result ≡ Err TagRefused.Class) ↔ (63 < class) }
        ensures start_over { (result ≡ Err TagRefused.Start) ↔ ((class ≤ 63) × (63 < start)) }
        ensures extra_over { (result ≡ Err TagRefused.Extra)
            ↔ ((class ≤ 63) × (start ≤ 63) × (63 < extra)) }
        ensures dummy { (result ≡ Err TagRefused.DummyNotZero)
            ↔ ((class ≡ 0) × (start ≤ 63) × (extra ≤ 63) × ((0 < start) ⊎ (0 < extra))) }
        ensures value { IfOk result
            (λ tag. tag ≡ record { class = class; start = start; extra = extra }) }
    {
        if class > 63 {
            return Err(TagRefused::Class);
        }
        if start > 63 {
            return Err(TagRefused::Start);
        }
        if extra > 63 {
            return Err(TagRefused::Extra);
        }
        if class == 0 && (start > 0 || extra > 0) {
            return Err(TagRefused::DummyNotZero);
        }
        Ok(Tag {
            class,
            start,
            extra,
        })
    }

    /// Returns the class: the kind of piece, for example a title or an artist. 0 is the dummy.
    pub fn class(self) -> u8
        ensures value { result ≡ self.class }
        ensures below { result < 64 }
    {
        self.class
    }

    /// Returns the place of the first character in the text, from 0.
    pub fn start(self) -> u8
        ensures value { result ≡ self.start }
        ensures below { result < 64 }
        ensures dummy { self.class ≡ 0 → result ≡ 0 }
    {
        self.start
    }

    /// Returns the length marker: the number of characters less one.
    pub fn extra(self) -> u8
        ensures value { result ≡ self.extra }
        ensures below { result < 64 }
        ensures dummy { self.class ≡ 0 → result ≡ 0 }
    {
        self.extra
    }

    /// Returns whether the tag ends in a text of `length` characters. The dummy ends in every text.
    pub fn ends_in(self, length: usize) -> bool
        ensures { result ≡ ends_in length self }
    {
        self.class == 0 || usize::from(self.end()) <= length
    }

    /// Returns the piece of the text that the tag marks, borrowed from the text. `None` for the dummy, and if the tag
    /// does not end in the text.
    pub fn piece_in(self, text: &[u8]) -> Option<&[u8]>
        ensures piece { option_copied result ≡ piece_in text.now self }
        ensures characters { IfSome result (λ piece. length piece.now ≡ self.extra + 1) }
        ensures within { IfSome result (λ piece. length piece.now ≤ length text.now) }
    {
        if self.class == 0 {
            return None;
        }
        text.get(usize::from(self.start)..usize::from(self.end()))
    }

    /// Returns the place after the last character of the piece, at most 127. For the dummy this is 1.
    pub fn end(self) -> u8
        ensures { result ≡ end_of self }
    {
        self.start + self.extra + 1
    }

    /// Reads a tag from its three received fields. Class 0 gives the dummy, whatever the other fields hold.
    pub(crate) fn read(class: u8, start: u8, extra: u8) -> Tag
        requires class { class < 64 }
        requires start { start < 64 }
        requires extra { extra < 64 }
        ensures { IsRead class start extra result }
    {
        if class == 0 {
            return Tag {
                class: 0,
                start: 0,
                extra: 0,
            };
        }
        Tag {
            class,
            start,
            extra,
        }
    }
}
