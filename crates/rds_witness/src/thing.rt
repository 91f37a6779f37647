//! The things that a view shows.
ghost use Rattle.std.specs.Prelude.{◌≡◌, ◌↔◌, ◌<◌, IfSome, IsTrue, Some, option_map, option_copied};
ghost use Rattle.rds_receiver.specs.Borrowed.{borrowed_tag, view_of};
ghost use Rattle.rds_witness.specs.Borrowed.{IsShortThing, thing_of};
ghost use Rattle.rds_witness.specs.Mix.{Has, ViewHas};
ghost use Rattle.rds_witness.specs.SomeLines.{kind_of, thing_in};

use rds_fields::Which;
use rds_receiver::View;

/// A thing that a view can show.
#[derive(Clone, Copy)]
pub(crate) enum Thing<'a> {
    Text(&'a [u8]),
    Name(&'a [u8]),
    /// One of the two tags: its content type, and its piece of the text.
    Tag(Which, u8, &'a [u8]),
}

/// The number of kinds of things: a text, a name, a first tag, a second tag.
pub(crate) const KINDS: usize = 4;

impl<'a> Thing<'a> {
    /// Returns the thing of this kind in a view: of kind 0 is its text, of 1 its name, of 2 and 3 are its tags.
    pub(crate) fn of_kind(view: View<'a>, kind: usize) -> Option<Thing<'a>>
        requires { kind < 4 }
        ensures is { option_map thing_of result ≡ thing_in (view_of view.entry) kind }
        ensures has { IfSome result (λ thing. Has (view_of view.entry) (thing_of thing)) }
        ensures kind { IfSome result (λ thing. kind_of (thing_of thing) ≡ kind) }
        ensures short { IfSome result IsShortThing }
    {
        match kind {
            0 => Some(Thing::Text(view.text?)),
            1 => Some(Thing::Name(view.name?)),
            2 => {
                let (class, piece) = view.one?;
                Some(Thing::Tag(Which::One, class, piece))
            }
            _ => {
                let (class, piece) = view.two?;
                Some(Thing::Tag(Which::Two, class, piece))
            }
        }
    }
}

/// Returns whether a view shows the thing. A tag may be in either place.
pub(crate) fn shows(view: View<'_>, thing: Thing<'_>) -> bool
    ensures { IsTrue result ↔ ViewHas (view_of view.entry) (thing_of thing.entry) }
{
    match thing {
        Thing::Text(text) => is_text(view.text, text),
        Thing::Name(name) => is_text(view.name, name),
        Thing::Tag(_, class, piece) => {
            is_tag(view.one, class, piece) || is_tag(view.two, class, piece)
        }
    }
}

/// Returns whether this text is shown.
pub(crate) fn is_text(shown: Option<&[u8]>, text: &[u8]) -> bool
    ensures { IsTrue result ↔ (option_copied shown.entry ≡ Some text.now) }
{
    match shown {
        Some(shown) => shown == text,
        None => false,
    }
}

fn is_tag(shown: Option<(u8, &[u8])>, class: u8, piece: &[u8]) -> bool
    ensures { IsTrue result ↔ (borrowed_tag shown.entry ≡ Some (class, piece.now)) }
{
    match shown {
        Some((shown_class, shown)) => shown_class == class && shown == piece,
        None => false,
    }
}
