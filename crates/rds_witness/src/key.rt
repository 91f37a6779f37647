//! The keys by which things are looked up.
ghost use Rattle.std.specs.Prelude.{◌≡◌, ◌≤◌, ◌∷◌, length};
ghost use Rattle.rds_witness.specs.Borrowed.{IsShortThing, thing_of};
ghost use Rattle.rds_witness.specs.Firsts.{key_of};

use crate::thing::Thing;
use arrayvec::ArrayVec;

/// The most bytes of a key: a kind, a content type and a text.
const KEY_BYTES: usize = 66;

/// The kind of a thing, its content type and its bytes.
pub(crate) type Key = ArrayVec<u8, KEY_BYTES>;

const TEXT: u8 = 0;

const NAME: u8 = 1;

const TAG: u8 = 2;

/// Returns the key of a thing. It is the same for a tag in either place.
pub(crate) fn key_of(thing: Thing<'_>) -> Key
    ensures { IsShortThing thing.entry → result.items ≡ key_of (thing_of thing.entry) }
{
    match thing {
        Thing::Text(text) => text_key(text),
        Thing::Name(name) => name_key(name),
        Thing::Tag(_, class, piece) => tag_key(class, piece),
    }
}

/// Returns the key of a text.
pub(crate) fn text_key(text: &[u8]) -> Key
    ensures { length text.now ≤ 64 → result.items ≡ 0 ∷ 0 ∷ text.now }
{
    key(TEXT, 0, text)
}

/// Returns the key of a name.
pub(crate) fn name_key(name: &[u8]) -> Key
    ensures { length name.now ≤ 64 → result.items ≡ 1 ∷ 0 ∷ name.now }
{
    key(NAME, 0, name)
}

/// Returns the key of a tag with this content type and this piece of the text.
pub(crate) fn tag_key(class: u8, piece: &[u8]) -> Key
    ensures { length piece.now ≤ 64 → result.items ≡ 2 ∷ class ∷ piece.now }
{
    key(TAG, class, piece)
}

/// Returns the key of a part with these bytes. More bytes than a text has are left out.
fn key(kind: u8, class: u8, bytes: &[u8]) -> Key
    ensures { length bytes.now ≤ 64 → result.items ≡ kind ∷ class ∷ bytes.now }
{
    let mut key = Key::new();
    key.push(kind);
    key.push(class);
    let _ = key.try_extend_from_slice(bytes);
    key
}
