//! What a receiver shows.
ghost use Rattle.std.specs.Prelude.{◌≡◌, ◌<◌, ◌≤◌, IfSome, length, option_copied};
ghost use Rattle.rds_receiver.specs.Borrowed.{borrowed_tag, view_of};
ghost use Rattle.rds_receiver.specs.Kept.{flag_of};
ghost use Rattle.rds_receiver.specs.NotShown.{AreWhys};
ghost use Rattle.rds_receiver.specs.Receipts.{name_fragment, text_fragment};
ghost use Rattle.rds_receiver.specs.Run.{run_at};
ghost use Rattle.rds_receiver.specs.Shown.{IsItemShown, IsNameShown, IsShortText, IsTagShown, IsTextShown, IsView};
ghost use Rattle.rds_receiver.specs.Shown.{view_with};
ghost use Rattle.rds_receiver.specs.ReceiverAt.{WhatItHeard, WhereReceiverStands};
ghost use Rattle.rds_receiver.specs.Tags.{item_of, pair_held, tag_of};

use crate::{Receiver, View, Whys};
use rds_assembly::{RadioText, TypeName};
use rds_fields::{TagPair, Which};

impl<'a> View<'a> {
    /// Returns the view of a text, a name and a pair of tags. Each of them may be missing.
    pub fn of(text: Option<&'a [u8]>, name: Option<&'a [u8]>, pair: Option<TagPair>) -> View<'a>
        requires text { IsShortText text }
        requires name { IsShortText name }
        ensures { view_of result ≡ view_with (option_copied text.entry) (option_copied name.entry) pair }
    {
        // Prover: a `Copy` value is copied by a new name before its second use (PROVER.md, "Workarounds").
        let (again, third) = (pair, pair);
        View {
            text,
            name,
            item: shown_item(text, pair),
            one: shown_tag(text, again, Which::One),
            two: shown_tag(text, third, Which::Two),
        }
    }
}

impl Receiver {
    /// Returns all that is shown, borrowed from the receiver.
    pub fn view(&self) -> View<'_>
        ensures { WhereReceiverStands self.now (λ t input. IsView t input (view_of result)) }
    {
        View::of(self.text(), self.name(), self.pair())
    }

    /// Returns why a text and a name are not shown, if they are not.
    pub fn whys(&self) -> Whys
        ensures { WhereReceiverStands self.now (λ t input. AreWhys t input result) }
    {
        self.display.whys()
    }

    /// Returns the text shown, at most 64 bytes, borrowed from the receiver. `None` if no text is shown; `Some` of no
    /// bytes is the empty text.
    pub fn text(&self) -> Option<&[u8]>
        ensures shown { WhatItHeard self.now
            (λ m first heard. IsTextShown m first heard (option_copied result)) }
        ensures short { IfSome result (λ x. length x.now ≤ 64) }
    {
        self.display.text.whole::<RadioText>()
    }

    /// Returns the flag of the text segments that are held. `None` if none is held.
    pub(crate) fn text_flag(&self) -> Option<bool>
        ensures { WhatItHeard self.now (λ m first heard. result ≡ flag_of (run_at text_fragment m first heard)) }
    {
        self.display.text_flag()
    }

    /// Returns the flag of the segments of a name that are held. `None` if none is held.
    pub(crate) fn name_flag(&self) -> Option<bool>
        ensures { WhatItHeard self.now (λ m first heard. result ≡ flag_of (run_at name_fragment m first heard)) }
    {
        self.display.name_flag()
    }

    /// Returns the programme type name shown, eight bytes, borrowed from the receiver. `None` if no name is shown.
    pub fn name(&self) -> Option<&[u8]>
        ensures shown { WhatItHeard self.now
            (λ m first heard. IsNameShown m first heard (option_copied result)) }
        ensures short { IfSome result (λ x. length x.now ≡ 8) }
    {
        self.display.name.whole::<TypeName>()
    }

    /// Returns the item toggle bit and the item running bit. `None` if no text is shown or no pair of tags is held.
    pub fn item(&self) -> Option<(bool, bool)>
        ensures { WhatItHeard self.now (λ m first heard. IsItemShown m first heard result) }
    {
        shown_item(self.text(), self.pair())
    }

    /// Returns the class of one of the two tags and its piece of the text, borrowed from the receiver. `None` if no
    /// text is shown or no pair is held, if the tag is the dummy, and if it does not end in the text.
    pub fn tag(&self, which: Which) -> Option<(u8, &[u8])>
        ensures shown { WhatItHeard self.now
            (λ m first heard. IsTagShown m first heard which (borrowed_tag result)) }
        ensures class { IfSome result (λ tag. tag.0 < 64) }
        ensures short { IfSome result (λ tag. length tag.1.now ≤ 64) }
    {
        shown_tag(self.text(), self.pair(), which)
    }

    /// Returns the pair of tags that is held for the text being received. `None` if no pair is held.
    pub fn pair(&self) -> Option<TagPair>
        ensures { WhatItHeard self.now (λ m first heard. result ≡ pair_held m first heard) }
    {
        self.display.pair.pair()
    }
}

/// Returns the item bits of a pair. `None` without a text or a pair.
fn shown_item(text: Option<&[u8]>, pair: Option<TagPair>) -> Option<(bool, bool)>
    ensures { result ≡ item_of (option_copied text.entry) pair }
{
    text?;
    let pair = pair?;
    Some((pair.toggle(), pair.running()))
}

/// Returns the class of a tag of a pair and its piece of the text, borrowed from the text. `None` without a text or a
/// pair, if the tag is the dummy, and if it does not end in the text.
fn shown_tag(text: Option<&[u8]>, pair: Option<TagPair>, which: Which) -> Option<(u8, &[u8])>
    requires { IsShortText text }
    ensures shown { borrowed_tag result ≡ tag_of which (option_copied text.entry) pair }
    ensures class { IfSome result (λ tag. tag.0 < 64) }
    ensures short { IfSome result (λ tag. length tag.1.now ≤ 64) }
{
    let text = text?;
    let tag = pair?.tag(which);
    let piece = tag.piece_in(text)?;
    Some((tag.class(), piece))
}
