//! The view of a receiver as a plain struct.
ghost use Rattle.std.specs.Prelude.{◌≡◌, ◌+◌, ◌≤◌, ◌⊎◌, ℕ, List, None, Option, Some, false, length};
ghost use Rattle.std.specs.Prelude.{if◌then◌else◌, true};
ghost use Rattle.std.specs.Option.{ForSome, option_copied};
ghost use Rattle.rds_receiver.specs.Counts.{keeping};
ghost use Rattle.rds_receiver.specs.Kept.{beside};
ghost use Rattle.rds_receiver.specs.Shown.{IsNameShown, IsShortText, IsTextShown, IsView, ShownView};
ghost use Rattle.rds_receiver.specs.Shown.{view_with};
ghost use Rattle.rds_receiver.specs.Tags.{pair_held, tag_of};
ghost use Rattle.rds_receiver.specs.ReceiverAt.{WhatItHeard, WhereReceiverStands};
ghost use Rattle.rds_ffi.specs.Viewed as specs;
ghost use Rattle.rds_ffi.specs.Viewed.{ShowsTagsOf, IsPlainItem, IsPlainName, IsPlainText, IsPlainView, IsTagOf};
ghost use Rattle.rds_ffi.specs.Viewed.{count_of, item_viewed, name_viewed, tag_viewed, text_viewed, viewed};

use rds_assembly::LONGEST_TEXT;
use rds_fields::{TagPair, Which};
use rds_receiver::{Kept, Receiver};

/// A text, its first `length` bytes. `is_shown` is 0 if there is none.
#[repr(C)]
#[derive(Clone, Copy)]
pub struct RdsrtText {
    pub bytes: [u8; LONGEST_TEXT],
    pub length: u8,
    pub is_shown: u8,
}

/// A name. `is_shown` is 0 if there is none.
#[repr(C)]
#[derive(Clone, Copy)]
pub struct RdsrtName {
    pub bytes: [u8; 8],
    pub is_shown: u8,
}

/// The two bits of the item. `is_shown` is 0 if there are none.
#[repr(C)]
#[derive(Clone, Copy)]
pub struct RdsrtItem {
    pub is_shown: u8,
    pub toggle: u8,
    pub running: u8,
}

/// A content type of RadioText Plus, and the place of its piece in the text. Content type 0 means no tag.
#[repr(C)]
#[derive(Clone, Copy)]
pub struct RdsrtTag {
    pub content_type: u8,
    pub start: u8,
    pub length: u8,
}

/// All that a receiver shows.
#[repr(C)]
#[derive(Clone, Copy)]
pub struct RdsrtView {
    pub text: RdsrtText,
    pub name: RdsrtName,
    pub item: RdsrtItem,
    pub one: RdsrtTag,
    pub two: RdsrtTag,
}

/// Writes the parts of the receiver's view that are not kept.
pub(crate) fn show(view: &mut RdsrtView, kept: Kept, receiver: &Receiver)
    ensures shown { WhereReceiverStands receiver.now (λ t input. (now : ShownView) × IsView t input now
        × (viewed view.new ≡ keeping kept (viewed view.old) now)) }
    ensures tags { kept.text ≡ false → WhatItHeard receiver.now (λ m first heard.
        ShowsTagsOf (pair_held m first heard) view.new) }
    ensures plain { ((kept.text ≡ true) ⊎ (kept.name ≡ true) → IsPlainView view.old) → IsPlainView view.new }
{
    show_name(view, kept.name, receiver);
    show_text(view, kept.text, receiver);
}

/// Writes the name, if it is not kept.
fn show_name(view: &mut RdsrtView, is_kept: bool, receiver: &Receiver)
    ensures others { view.new ≡ record view.old { name = view.new.name } }
    ensures shown { WhatItHeard receiver.now (λ m first heard. (name : Option (List ℕ)) × IsNameShown m first heard name
        × (name_viewed view.new.name ≡ if is_kept then name_viewed view.old.name else name)) }
    ensures plain { (is_kept ≡ true → IsPlainName view.old.name) → IsPlainName view.new.name }
{
    let name = receiver.name();
    if is_kept {
        return;
    }
    view.name = plain_name(name);
}

/// Writes the text with its item bits and tags, if they are not kept.
fn show_text(view: &mut RdsrtView, is_kept: bool, receiver: &Receiver)
    ensures name { view.new.name ≡ view.old.name }
    ensures shown { WhatItHeard receiver.now (λ m first heard. (text : Option (List ℕ)) × IsTextShown m first heard text
        × (viewed view.new ≡ keeping record { text = is_kept; name = true } (viewed view.old)
        (view_with text None (pair_held m first heard)))) }
    ensures tags { is_kept ≡ false → WhatItHeard receiver.now (λ m first heard.
        ShowsTagsOf (pair_held m first heard) view.new) }
    ensures plain { IsPlainName view.old.name → (is_kept ≡ true → IsPlainView view.old) → IsPlainView view.new }
{
    let text = receiver.text();
    if is_kept {
        return;
    }
    view.text = plain_text(text);
    view.item = plain_item(receiver.item());
    view.one = plain_tag(text, Which::One, receiver.pair());
    view.two = plain_tag(text, Which::Two, receiver.pair());
}

/// Returns the view of a display that shows nothing.
pub(crate) fn nothing_seen() -> RdsrtView
    ensures shown { viewed result ≡ beside None None }
    ensures plain { IsPlainView result }
{
    RdsrtView {
        text: plain_text(None),
        name: plain_name(None),
        item: plain_item(None),
        one: no_tag(),
        two: no_tag(),
    }
}

/// Returns the text.
pub(crate) fn plain_text(text: Option<&[u8]>) -> RdsrtText
    requires { IsShortText text }
    ensures same { text_viewed result ≡ option_copied text.entry }
    ensures count { result.length ≡ count_of text.entry }
    ensures plain { IsPlainText result }
    ensures none { result.is_shown ≡ 0 → text.entry ≡ None }
{
    let mut bytes = [0; LONGEST_TEXT];
    let Some(text) = text else {
        return RdsrtText {
            bytes,
            length: 0,
            is_shown: 0,
        };
    };
    bytes[..text.len()].copy_from_slice(text);
    RdsrtText {
        bytes,
        length: text.len() as u8,
        is_shown: 1,
    }
}

/// Returns the name.
pub(crate) fn plain_name(name: Option<&[u8]>) -> RdsrtName
    requires { ForSome name (λ x. length x.now ≡ 8) }
    ensures same { name_viewed result ≡ option_copied name.entry }
    ensures plain { IsPlainName result }
{
    let mut bytes = [0; 8];
    let Some(name) = name else {
        return RdsrtName { bytes, is_shown: 0 };
    };
    bytes.copy_from_slice(name);
    RdsrtName { bytes, is_shown: 1 }
}

/// Returns the bits of the item.
fn plain_item(item: Option<(bool, bool)>) -> RdsrtItem
    ensures same { item_viewed result ≡ item }
    ensures plain { IsPlainItem result }
{
    match item {
        None => RdsrtItem {
            is_shown: 0,
            toggle: 0,
            running: 0,
        },
        Some((toggle, running)) => RdsrtItem {
            is_shown: 1,
            toggle: u8::from(toggle),
            running: u8::from(running),
        },
    }
}

/// Returns a tag of the pair, if it is shown with the text.
fn plain_tag(text: Option<&[u8]>, which: Which, pair: Option<TagPair>) -> RdsrtTag
    requires { IsShortText text }
    ensures same { tag_viewed result (option_copied text.entry)
        ≡ tag_of which (option_copied text.entry) pair }
    ensures within { result.start + result.length ≤ count_of text.entry }
    ensures none { result.content_type ≡ 0 → result ≡ specs.no_tag }
    ensures no_text { text.entry ≡ None → result ≡ specs.no_tag }
    ensures of_pair { IsTagOf which pair result }
{
    let Some(text) = text else {
        return no_tag();
    };
    let Some(pair) = pair else {
        return no_tag();
    };
    let tag = pair.tag(which);
    if tag.piece_in(text).is_none() {
        return no_tag();
    }
    RdsrtTag {
        content_type: tag.class(),
        start: tag.start(),
        length: tag.extra() + 1,
    }
}

/// Returns the value for no tag.
fn no_tag() -> RdsrtTag
    ensures { result ≡ specs.no_tag }
{
    RdsrtTag {
        content_type: 0,
        start: 0,
        length: 0,
    }
}
