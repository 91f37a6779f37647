//! A yes or no for each part of a view.
ghost use Rattle.std.specs.Prelude.{◌≡◌};
ghost use Rattle.rds_receiver.specs.Borrowed.{view_of};
ghost use Rattle.rds_view_lines.specs.Part.{same_parts};

use crate::change::Part;
use rds_receiver::View;

/// A yes or no for the text, the name and each of the two tags of a view.
#[derive(Clone, Copy, Debug, Default, PartialEq, Eq)]
pub struct Parts {
    pub text: bool,
    pub name: bool,
    pub one: bool,
    pub two: bool,
}

/// Returns which parts of two views are the same.
pub fn same_parts(view: View<'_>, other: View<'_>) -> Parts
    ensures { result ≡ same_parts (view_of view.entry) (view_of other.entry) }
{
    Parts {
        text: Part::Text(view.text).is_same(Part::Text(other.text)),
        name: Part::Text(view.name).is_same(Part::Text(other.name)),
        one: Part::Tag(view.one).is_same(Part::Tag(other.one)),
        two: Part::Tag(view.two).is_same(Part::Tag(other.two)),
    }
}
