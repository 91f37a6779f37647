//! A copy of a receiver's view.
ghost use Rattle.std.specs.Prelude.{◌≡◌, ◌≤◌, length, option_copied};
ghost use Rattle.rds_receiver.specs.Borrowed.{borrowed_tag};
ghost use Rattle.rds_receiver.specs.Shown.{IsShortTag, IsShortText};
ghost use Rattle.rds_view_lines.specs.KeptView.{tag_kept, text_kept};

use arrayvec::ArrayVec;
use rds_assembly::LONGEST_TEXT;
use rds_receiver::View;

/// A copy of the bytes of a text, a name or a piece.
pub type Bytes = ArrayVec<u8, LONGEST_TEXT>;

/// A copy of a view.
#[derive(Default, Drop)]
pub struct KeptView {
    pub text: Option<Bytes>,
    pub name: Option<Bytes>,
    pub item: Option<(bool, bool)>,
    pub one: Option<(u8, Bytes)>,
    pub two: Option<(u8, Bytes)>,
}

impl KeptView {
    ghost use Rattle.rds_view_lines.specs.KeptView.{view_kept};
    ghost use Rattle.rds_view_lines.specs.Output.{nothing_shown};
    ghost use Rattle.rds_receiver.specs.Borrowed.{view_of};

    /// Returns the copy of a view that shows nothing.
    pub fn new() -> KeptView
        ensures { view_kept result ≡ nothing_shown }
    {
        KeptView {
            text: None,
            name: None,
            item: None,
            one: None,
            two: None,
        }
    }

    /// Copies a view.
    pub fn of(view: View<'_>) -> KeptView
        ensures { view_kept result ≡ view_of view.entry }
    {
        KeptView {
            text: copied_text(view.text),
            name: copied_text(view.name),
            item: view.item,
            one: copied_tag(view.one),
            two: copied_tag(view.two),
        }
    }

    /// Returns the view that was copied.
    pub fn view(&self) -> View<'_>
        ensures { view_of result ≡ view_kept self.now }
    {
        View {
            text: as_text(&self.text),
            name: as_text(&self.name),
            item: self.item,
            one: as_tag(&self.one),
            two: as_tag(&self.two),
        }
    }
}

fn copied_text(text: Option<&[u8]>) -> Option<Bytes>
    requires { IsShortText text }
    ensures { text_kept result ≡ option_copied text.entry }
{
    Some(copied(text?))
}

fn copied_tag(tag: Option<(u8, &[u8])>) -> Option<(u8, Bytes)>
    requires { IsShortTag tag }
    ensures { tag_kept result ≡ borrowed_tag tag.entry }
{
    let (class, piece) = tag?;
    Some((class, copied(piece)))
}

fn copied(bytes: &[u8]) -> Bytes
    requires { length bytes.now ≤ 64 }
    ensures { result.items ≡ bytes.now }
{
    let mut copy = Bytes::new();
    copy.try_extend_from_slice(bytes).unwrap();
    copy
}

fn as_text(text: &Option<Bytes>) -> Option<&[u8]>
    ensures bytes { option_copied result ≡ text_kept text.now }
    ensures short { IsShortText result }
{
    Some(text.as_ref()?.as_slice())
}

fn as_tag(tag: &Option<(u8, Bytes)>) -> Option<(u8, &[u8])>
    ensures tag { borrowed_tag result ≡ tag_kept tag.now }
    ensures short { IsShortTag result }
{
    let (class, piece) = tag.as_ref()?;
    Some((*class, piece.as_slice()))
}
