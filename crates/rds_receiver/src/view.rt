//! The view of a receiver, borrowed from it.
// Prover: a struct with a ghost field imports all that the `ghost use` lines of its file name, so it has a file of its
// own (PROVER.md, "Workarounds").
ghost use Rattle.rds_receiver.specs.Shown.{IsShort};

/// All that a receiver shows at the end of a slot, borrowed from it. A part is `None` if it is not shown.
#[derive(Clone, Copy, Debug, PartialEq)]
pub struct View<'a> {
    /// The text, at most 64 bytes. `Some` of no bytes is the empty text.
    pub text: Option<&'a [u8]>,
    /// The programme type name, eight bytes.
    pub name: Option<&'a [u8]>,
    /// The item toggle bit and the item running bit.
    pub item: Option<(bool, bool)>,
    /// The class of the first tag and its piece of the text.
    pub one: Option<(u8, &'a [u8])>,
    /// The class of the second tag and its piece of the text.
    pub two: Option<(u8, &'a [u8])>,
    pub ghost short: { IsShort text name one two },
}
