//! The output line of each part of a view that changed.
ghost use Rattle.std.specs.Prelude.{◌≡◌, ◌≤◌, ◌+◌, ◌++◌, IfSome, codes, length};
ghost use Rattle.std.specs.Option.{ForSome, option_copied};
ghost use Rattle.rds_receiver.specs.Borrowed.{borrowed_tag};
ghost use Rattle.rds_view_lines.specs.Output.{bit_content, change, class_name, item_content};
ghost use Rattle.rds_view_lines.specs.Output.{name_or_number, none_content, quoted, tag_content, text_content};
ghost use Rattle.rds_view_lines.specs.Output.{why_content};
ghost use Rattle.rds_view_lines.specs.declared.change.TheConstants.{LINE_ROOM, SLOT_ROOM};

use rds_charset::push_text;
use rds_io::Lines;
use rds_receiver::{View, WhyNone, Whys};

/// The most bytes of the line of a part: its name, the name of a content type, and a text of 64 bytes, each byte
/// printed as at most four.
pub const LINE_ROOM: usize = 344;

/// The most bytes of the lines of a slot, one line for each of the five parts.
pub const SLOT_ROOM: usize = 5 * LINE_ROOM;

/// The beginning of an output line.
#[derive(Clone, Copy)]
pub enum Prefix {
    /// The slot, if there is one receiver.
    Slot(u64),
    /// The slot, and the number of one of several receivers, counted from 0.
    Receiver(u64, usize),
    /// The slot, for what a station has on air.
    OnAir(u64),
}

impl Prefix {
    ghost use Rattle.rds_view_lines.specs.Part.{prefix_of};

    /// Appends the prefix and a space.
    #[tactic(auto, using(std::proofs::lemmas::Grind::common_steps))]
    pub fn push<const N: usize>(self, lines: &mut Lines<N>)
        requires { length lines.old + 43 ≤ N }
        ensures prefix { lines.new ≡ lines.old ++ prefix_of self }
        ensures room { length lines.new ≤ length lines.old + 43 }
    {
        match self {
            Prefix::Slot(slot) => lines.push_number(slot),
            Prefix::Receiver(slot, receiver) => {
                lines.push_number(slot);
                lines.push(b" r");
                lines.push_number(receiver as u64);
            }
            Prefix::OnAir(slot) => {
                lines.push_number(slot);
                lines.push(b" air");
            }
        }
        lines.push(b" ");
    }
}

/// A part of a view.
#[derive(Clone, Copy)]
pub(crate) enum Part<'a> {
    /// A text or a name.
    Text(Option<&'a [u8]>),
    /// The item bits.
    Item(Option<(bool, bool)>),
    /// A tag: its content type, and its piece of the text.
    Tag(Option<(u8, &'a [u8])>),
}

impl Part<'_> {
    ghost use Rattle.std.specs.Prelude.{ℕ, List};
    ghost use Rattle.rds_view_lines.specs.Part.{IsShortPart, is_same_part, part_content};

    /// Returns whether both parts show the same.
    pub(crate) fn is_same(self, other: Part<'_>) -> bool
        ensures { result ≡ is_same_part self.entry other.entry }
    {
        match (self, other) {
            (Part::Text(before), Part::Text(now)) => before == now,
            (Part::Item(before), Part::Item(now)) => before == now,
            (Part::Tag(before), Part::Tag(now)) => before == now,
            _ => false,
        }
    }

    /// Appends the content of the part, which follows its name. A text or a name that is not shown has the reason, if
    /// there is one.
    fn push<const N: usize>(self, why: Option<WhyNone>, lines: &mut Lines<N>)
        requires short { IsShortPart self }
        requires room { length lines.old + 290 ≤ N }
        ensures content { lines.new ≡ lines.old ++ part_content why self.entry }
        ensures room { length lines.new ≤ length lines.old + 290 }
    {
        match self {
            Part::Text(Some(text)) => push_quoted(text, lines),
            Part::Item(Some((toggle, running))) => {
                lines.push(bit_content(toggle));
                lines.push(bit_content(running));
            }
            Part::Tag(Some((class, piece))) => {
                push_class(class, lines);
                push_quoted(piece, lines);
            }
            Part::Text(None) => push_none(why, lines),
            Part::Item(None) | Part::Tag(None) => lines.push(b" none"),
        }
    }
}

/// Appends that a text or a name is not shown, and why, if there is a reason.
fn push_none<const N: usize>(why: Option<WhyNone>, lines: &mut Lines<N>)
    requires { length lines.old + 16 ≤ N }
    ensures content { lines.new ≡ lines.old ++ none_content why }
    ensures room { length lines.new ≤ length lines.old + 16 }
{
    lines.push(b" none");
    if let Some(why) = why {
        lines.push(why_content(why));
    }
}

fn why_content(why: WhyNone) -> &'static [u8]
    ensures content { result.now ≡ why_content why }
    ensures short { length result.now ≤ 11 }
{
    match why {
        WhyNone::Incomplete => b" incomplete",
        WhyNone::Dropped => b" dropped",
        WhyNone::Restarted => b" restarted",
    }
}

fn bit_content(is_set: bool) -> &'static [u8]
    ensures content { result.now ≡ bit_content is_set }
    ensures two { length result.now ≡ 2 }
{
    if is_set { b" 1" } else { b" 0" }
}

/// Appends the name of a content type, or its number if it has no name.
pub fn push_class<const N: usize>(class: u8, lines: &mut Lines<N>)
    requires { length lines.old + 21 ≤ N }
    ensures class { lines.new ≡ lines.old ++ codes " " ++ name_or_number (class_name class) class }
    ensures room { length lines.new ≤ length lines.old + 21 }
{
    lines.push(b" ");
    match class_name(class) {
        Some(name) => lines.push(name),
        None => lines.push_number(u64::from(class)),
    }
}

/// Returns the name of a content type (IEC 62106-6, content types of RadioText Plus).
fn class_name(class: u8) -> Option<&'static [u8]>
    ensures name { option_copied result ≡ class_name class }
    ensures short { IfSome result (λ name. length name.now ≤ 16) }
{
    match class {
        1 => Some(b"ITEM.TITLE"),
        2 => Some(b"ITEM.ALBUM"),
        3 => Some(b"ITEM.TRACKNUMBER"),
        4 => Some(b"ITEM.ARTIST"),
        5 => Some(b"ITEM.COMPOSITION"),
        6 => Some(b"ITEM.MOVEMENT"),
        7 => Some(b"ITEM.CONDUCTOR"),
        8 => Some(b"ITEM.COMPOSER"),
        9 => Some(b"ITEM.BAND"),
        10 => Some(b"ITEM.COMMENT"),
        11 => Some(b"ITEM.GENRE"),
        _ => None,
    }
}

/// Appends a text between quotation marks.
pub fn push_quoted<const N: usize>(text: &[u8], lines: &mut Lines<N>)
    requires text { length text.now ≤ 64 }
    requires room { length lines.old + 259 ≤ N }
    ensures quoted { lines.new ≡ lines.old ++ quoted text.now }
    ensures room { length lines.new ≤ length lines.old + 259 }
{
    lines.push(b" \"");
    push_text(text, lines);
    lines.push(b"\"");
}

ghost use Rattle.rds_view_lines.specs.Part.{IsShortPart, part_change, prefix_of};

/// Appends the line of a part, if the part differs from the slot before.
fn push_change<const N: usize>(
    prefix: Prefix,
    name: &[u8],
    why: Option<WhyNone>,
    before: Part<'_>,
    now: Part<'_>,
    lines: &mut Lines<N>,
)
    requires name { length name.now ≡ 4 }
    requires short { IsShortPart now }
    requires room { length lines.old + LINE_ROOM ≤ N }
    ensures change { lines.new ≡ lines.old ++ part_change (prefix_of prefix) name.now why before.entry now.entry }
    ensures room { length lines.new ≤ length lines.old + LINE_ROOM }
{
    if before.is_same(now) {
        return;
    }
    prefix.push(lines);
    lines.push(name);
    now.push(why, lines);
    lines.push(b"\n");
}

ghost use Rattle.rds_receiver.specs.Borrowed.{view_of};

/// Appends the line of each part of a view that differs from the slot before. With `whys` the line of a text or a name
/// that is not shown any more says why.
pub fn push_changes<const N: usize>(
    prefix: Prefix,
    whys: Option<Whys>,
    before: View<'_>,
    now: View<'_>,
    lines: &mut Lines<N>,
)
    requires { length lines.old + SLOT_ROOM ≤ N }
    ensures changes { lines.new ≡ lines.old ++ change (prefix_of prefix) whys (view_of before.entry)
        (view_of now.entry) }
    ensures room { length lines.new ≤ length lines.old + SLOT_ROOM }
{
    let (why_text, why_name) = match whys {
        Some(whys) => (Some(whys.text), Some(whys.name)),
        None => (None, None),
    };
    push_change(
        prefix,
        b"text",
        why_text,
        Part::Text(before.text),
        Part::Text(now.text),
        lines,
    );
    push_change(
        prefix,
        b"name",
        why_name,
        Part::Text(before.name),
        Part::Text(now.name),
        lines,
    );
    push_change(
        prefix,
        b"item",
        None,
        Part::Item(before.item),
        Part::Item(now.item),
        lines,
    );
    push_change(
        prefix,
        b"tag1",
        None,
        Part::Tag(before.one),
        Part::Tag(now.one),
        lines,
    );
    push_change(
        prefix,
        b"tag2",
        None,
        Part::Tag(before.two),
        Part::Tag(now.two),
        lines,
    );
}
