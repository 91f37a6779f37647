//! The parts that a receiver without a loss shows, and the first slot of each. For a search, the tags of a pair that the
//! station replaced count as shown: `firsts` has what is shown.
ghost use Rattle.std.specs.Prelude.{◌≡◌, ◌+◌, ◌<◌, [], All, IfOk, IfSome, IsTrue, List, OnOk, Option, Some, ℕ, length};
ghost use Rattle.std.specs.Prelude.{slice_index_or, true, Contains, option_copied};
ghost use Rattle.rds_block.specs.declared.group.Group.{Group};
ghost use Rattle.rds_fields.specs.declared.pair.Which.{Which};
ghost use Rattle.rds_fields.specs.Tag.{PairFields, tag_in};
ghost use Rattle.rds_receiver.specs.Receipts.{tuned, Tuning};
ghost use Rattle.rds_receiver.specs.Shown.{IsView, ShownView};
ghost use Rattle.rds_receiver.specs.ReceiverAt.{ReceiverAt};
ghost use Rattle.rds_receiver.specs.Stored.{display_stored};
ghost use Rattle.rds_fields.specs.Stored.{is_set};
ghost use Rattle.rds_receiver.specs.Tags.{cut_by};
ghost use Rattle.rds_witness.specs.Borrowed.{thing_of};
ghost use Rattle.rds_witness.specs.Lost.{got};
ghost use Rattle.rds_witness.specs.declared.seen.AllSeen.{AllSeen};
ghost use Rattle.rds_witness.specs.declared.seen.Seen.{Seen};
ghost use Rattle.rds_witness.specs.Search.{AreSeen, IsChecked, IsOfRun, IsSeen, IsSeenBefore, ShowsOnlySeen};

use crate::burst::received;
use crate::covering::Lossy;
use crate::key::{Key, key_of, name_key, tag_key, text_key};
use crate::thing::{KINDS, Thing, is_text};
use rds_block::Blocks;
use rds_fields::{Dwell, Tag, TagPair, Which};
use rds_receiver::{Receiver, View};
use std::alloc::{AllocError, Global};
use std::collections::BTreeMap;

/// The most pairs of tags that are kept of one run. A search takes a tag of another replaced pair for a mix.
const MOST_PAIRS: usize = 16;

/// A receiver after a slot, and a pair of tags of its run of texts.
#[derive(Drop)]
pub(crate) struct Seen {
    pub(crate) slot: usize,
    pub(crate) receiver: Receiver,
    pub(crate) pair: Option<TagPair>,
}

/// The receiver that loses nothing, in the slots in which it shows a part for the first time.
#[derive(Drop)]
pub(crate) struct AllSeen {
    pub(crate) seen: Vec<Seen>,
    /// The pairs of tags that came in the run of texts. If a station replaces a pair before the text is complete, both
    /// count as shown.
    pub(crate) pairs: Vec<TagPair>,
    /// The place in `seen` of a part.
    places: BTreeMap<Key, usize>,
}

fn seen_at(seen: &[Seen], place: usize) -> &Seen
    requires { place < length seen.now }
    ensures { (d : Seen) → slice_index_or seen.now place d ≡ result.now }
{
    &seen[place]
}

fn pair_at(pairs: &[TagPair], place: usize) -> TagPair
    requires { place < length pairs.now }
    ensures { (d : PairFields) → slice_index_or pairs.now place d ≡ result }
{
    pairs[place]
}

/// Returns whether the tag makes this piece of the text.
fn is_cut(tag: Tag, text: &[u8], class: u8, piece: &[u8]) -> bool
    ensures { IsTrue result → cut_by tag text.now ≡ Some (class, piece.now) }
{
    match tag.piece_in(text) {
        Some(cut) => tag.class() == class && cut == piece,
        None => false,
    }
}

/// Returns whether a tag of the pair makes this piece of the text.
fn is_of_pair(pair: Option<TagPair>, text: Option<&[u8]>, class: u8, piece: &[u8]) -> bool
    ensures { IsTrue result → (held : PairFields) × (x : List ℕ) × (which : Which) × (pair ≡ Some held)
        × (option_copied text.entry ≡ Some x) × (cut_by (tag_in which held) x ≡ Some (class, piece.now)) }
{
    let Some(pair) = pair else {
        return false;
    };
    let Some(text) = text else {
        return false;
    };
    is_cut(pair.one(), text, class, piece) || is_cut(pair.two(), text, class, piece)
}

/// Returns the key of the tag that this one makes of a text.
fn key_in(tag: Tag, text: &[u8]) -> Option<Key> {
    let piece = tag.piece_in(text)?;
    Some(tag_key(tag.class(), piece))
}

/// Returns whether the run of texts of a receiver goes on in the next slot.
fn goes_on(old: &Receiver, new: &Receiver) -> bool
    ensures age { IsTrue result → (display_stored old.now.display).text.age + 1 < old.now.display.dwell }
    ensures flag { IsTrue result → is_set old.now.display.text.flag ≡ is_set new.now.display.text.flag }
{
    let (old, new) = (&old.display, &new.display);
    let flag = old.text.flag != 0;
    let new_flag = new.text.flag != 0;
    flag == new_flag && u32::from(old.text_age()) + 1 < u32::from(old.dwell)
}

impl Seen {
    /// Returns whether the receiver shows the part, or shows a text of which the pair makes the tag.
    fn has(&self, thing: Thing<'_>) -> bool
        ensures { IsTrue result → (t : Tuning) (log : List (Option Group)) (n : ℕ) → IsSeen t log self.now
            → self.now.slot < n → IsSeenBefore t log n (thing_of thing.entry) }
    {
        let view = self.receiver.view();
        match thing {
            Thing::Text(text) => is_text(view.text, text),
            Thing::Name(name) => is_text(view.name, name),
            Thing::Tag(_, class, piece) => is_of_pair(self.pair, view.text, class, piece),
        }
    }
}

impl AllSeen {
    /// Reads all slots of a log.
    pub(crate) fn of(
        alloc: Global,
        log: &[Option<Blocks>],
        pi: u16,
        dwell: Dwell,
    ) -> Result<AllSeen, AllocError>
        ensures { IfOk result (λ all. AreSeen (tuned pi dwell) log.now all) }
    {
        let mut all = AllSeen {
            seen: Vec::new(alloc),
            pairs: Vec::new(alloc),
            places: BTreeMap::new(alloc),
        };
        let mut whole = Receiver::new(pi, dwell);
        for slot in 0..log.len() {
            let old = whole;
            let changed = whole.slot_blocks(received(log, &[], slot));
            all.drop_pairs(&old, &whole);
            if changed {
                all.note(&whole, slot)?;
            }
        }
        Ok(all)
    }

    /// Drops the pairs of tags unless the run of texts goes on.
    fn drop_pairs(&mut self, old: &Receiver, new: &Receiver)
        ensures seen { self.new.seen ≡ self.old.seen }
        ensures pairs { (pi m n : ℕ) (log : List (Option Group))
            → ReceiverAt (tuned pi m) old.now (got [] log n)
            → ReceiverAt (tuned pi m) new.now (got [] log (n + 1))
            → All (IsOfRun (tuned pi m) log n) self.old.pairs.items
            → All (IsOfRun (tuned pi m) log (n + 1)) self.new.pairs.items }
    {
        if !goes_on(old, new) {
            self.pairs.clear();
        }
    }

    /// Notes the parts that the receiver shows for the first time in this slot.
    fn note(&mut self, whole: &Receiver, slot: usize) -> Result<(), AllocError>
        ensures { OnOk result ((t : Tuning) (log : List (Option Group)) → slot < length log
            → ReceiverAt t whole.now (got [] log (slot + 1))
            → All (IsSeen t log) self.old.seen.items → All (IsOfRun t log (slot + 1)) self.old.pairs.items
            → All (IsSeen t log) self.new.seen.items × All (IsOfRun t log (slot + 1)) self.new.pairs.items
            × ((view : ShownView) × IsView t (got [] log (slot + 1)) view)) }
    {
        let view = whole.view();
        self.keep_pair(whole.pair())?;
        self.note_with(whole, view, slot, None)?;
        self.note_tags(whole, view, slot)?;
        Ok(())
    }

    fn keep_pair(&mut self, pair: Option<TagPair>) -> Result<(), AllocError>
        ensures seen { self.new.seen ≡ self.old.seen }
        ensures pairs { OnOk result ((t : Tuning) (log : List (Option Group)) (n : ℕ)
            → ((held : PairFields) → pair ≡ Some held → IsOfRun t log n held)
            → All (IsOfRun t log n) self.old.pairs.items → All (IsOfRun t log n) self.new.pairs.items) }
    {
        let Some(pair) = pair else {
            return Ok(());
        };
        if self.pairs.len() < MOST_PAIRS && !self.pairs.as_slice().contains(&pair) {
            self.pairs.push(pair)?;
        }
        Ok(())
    }

    /// Notes the tags that the pairs of the run make of the text that is shown.
    fn note_tags(&mut self, whole: &Receiver, view: View<'_>, slot: usize) -> Result<(), AllocError>
        ensures { OnOk result ((t : Tuning) (log : List (Option Group)) → slot < length log
            → ReceiverAt t whole.now (got [] log (slot + 1))
            → All (IsSeen t log) self.old.seen.items → All (IsOfRun t log (slot + 1)) self.old.pairs.items
            → All (IsSeen t log) self.new.seen.items × All (IsOfRun t log (slot + 1)) self.new.pairs.items) }
    {
        for place in 0..self.pairs.len() {
            let pair = pair_at(self.pairs.as_slice(), place);
            self.note_with(whole, view, slot, Some(pair))?;
        }
        Ok(())
    }

    /// Notes the receiver if it shows the tags of this pair, or a text or a name, for the first time.
    fn note_with(
        &mut self,
        whole: &Receiver,
        view: View<'_>,
        slot: usize,
        pair: Option<TagPair>,
    ) -> Result<(), AllocError>
        ensures pairs { self.new.pairs ≡ self.old.pairs }
        ensures seen { OnOk result ((t : Tuning) (log : List (Option Group)) → slot < length log
            → ReceiverAt t whole.now (got [] log (slot + 1))
            → ((held : PairFields) → pair ≡ Some held → IsOfRun t log (slot + 1) held)
            → All (IsSeen t log) self.old.seen.items → All (IsSeen t log) self.new.seen.items) }
    {
        if !self.is_new(view, pair)? {
            return Ok(());
        }
        self.seen.push(Seen {
            slot,
            receiver: *whole,
            pair,
        })?;
        Ok(())
    }

    /// Returns whether the tags of this pair, or the text or the name, are shown for the first time, and takes the next
    /// place of `seen` for them.
    fn is_new(&mut self, view: View<'_>, pair: Option<TagPair>) -> Result<bool, AllocError>
        ensures seen { self.new.seen ≡ self.old.seen }
        ensures pairs { self.new.pairs ≡ self.old.pairs }
    {
        let Some(pair) = pair else {
            let text = self.is_new_part(view.text.map(text_key))?;
            let name = self.is_new_part(view.name.map(name_key))?;
            return Ok(text || name);
        };
        let Some(text) = view.text else {
            return Ok(false);
        };
        let one = self.is_new_part(key_in(pair.one(), text))?;
        let two = self.is_new_part(key_in(pair.two(), text))?;
        Ok(one || two)
    }

    fn is_new_part(&mut self, key: Option<Key>) -> Result<bool, AllocError>
        ensures seen { self.new.seen ≡ self.old.seen }
        ensures pairs { self.new.pairs ≡ self.old.pairs }
    {
        let Some(key) = key else {
            return Ok(false);
        };
        if self.places.contains_key(&key) {
            return Ok(false);
        }
        let place = self.seen.len();
        let _ = self.places.insert(key, place)?;
        Ok(true)
    }

    /// Returns the slot in which a receiver that loses nothing shows the part first, and the receiver, if that is one
    /// of the first slots.
    fn seen_before(&self, slots: usize, thing: Thing<'_>) -> Option<&Seen>
        ensures { IfSome result (λ seen. (seen.now.slot < slots) × Contains self.now.seen.items seen.now) }
    {
        let place = *self.places.get(&key_of(thing))?;
        if place >= self.seen.len() {
            return None;
        }
        let seen = seen_at(self.seen.as_slice(), place);
        if seen.slot < slots { Some(seen) } else { None }
    }

    /// Returns whether a receiver that loses nothing shows the part in one of the first slots, or a text of which a
    /// pair of its run makes the tag.
    fn has(&self, slots: usize, thing: Thing<'_>) -> bool
        ensures { IsTrue result → (t : Tuning) (log : List (Option Group)) → AreSeen t log self.now
            → IsSeenBefore t log slots (thing_of thing.entry) }
    {
        match self.seen_before(slots, thing) {
            Some(seen) => seen.has(thing),
            None => false,
        }
    }

    /// Returns whether a receiver that loses nothing shows all parts of this one in some of the first slots. If the
    /// view did not change, it does.
    pub(crate) fn has_all(&self, slots: usize, one: &Lossy) -> bool
        ensures { IsTrue result → (t : Tuning) (log : List (Option Group))
            → AreSeen t log self.now → IsChecked t log slots one.now
            → ShowsOnlySeen t log slots one.now.receiver }
    {
        if !one.changed {
            return true;
        }
        let view = one.receiver.view();
        for kind in 0..KINDS {
            if let Some(thing) = Thing::of_kind(view, kind) {
                if !self.has(slots, thing) {
                    return false;
                }
            }
        }
        true
    }
}
