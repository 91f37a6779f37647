//! In which slot a receiver that loses nothing shows each thing first.
ghost use Rattle.std.specs.Prelude.{◌≡◌, ◌≤◌, ◌<◌, ◌+◌, ◌↔◌, [], ℕ, IfOk, IsTrue, List, OnOk, Option, Some, length};
ghost use Rattle.std.specs.Prelude.{if◌then◌else◌, unwrap_or, bytes_eq};
ghost use Rattle.rds_block.specs.declared.group.Group.{Group};
ghost use Rattle.rds_receiver.specs.Receipts.{tuned, Tuning};
ghost use Rattle.rds_receiver.specs.Borrowed.{view_of};
ghost use Rattle.rds_receiver.specs.Shown.{IsView};
ghost use Rattle.rds_witness.specs.Borrowed.{IsShortThing, thing_of};
ghost use Rattle.rds_witness.specs.Firsts.{AreFirsts, AreFirstsSoFar, key_of, slot_at};
ghost use Rattle.rds_witness.specs.Lost.{got};
ghost use Rattle.rds_witness.specs.Mix.{NeverShows};

use crate::burst::received;
use crate::key::{Key, key_of};
use crate::thing::{KINDS, Thing};
use rds_block::Blocks;
use rds_fields::Dwell;
use rds_receiver::{Receiver, View};
use std::alloc::{AllocError, Global};
use std::collections::BTreeMap;

/// For each thing, the first slot in which a receiver that loses nothing shows it.
#[derive(Drop)]
pub(crate) struct Firsts {
    slots: BTreeMap<Key, usize>,
}

impl Firsts {
    /// Reads all slots of a log.
    pub(crate) fn of(
        alloc: Global,
        log: &[Option<Blocks>],
        pi: u16,
        dwell: Dwell,
    ) -> Result<Firsts, AllocError>
        ensures { IfOk result (λ firsts. AreFirsts (tuned pi dwell) log.now (length log.now) firsts) }
    {
        let mut firsts = Firsts {
            slots: BTreeMap::new(alloc),
        };
        let mut receiver = Receiver::new(pi, dwell);
        for slot in 0..log.len() {
            let changed = receiver.slot_blocks(received(log, &[], slot));
            if changed {
                firsts.note(receiver.view(), slot)?;
            }
        }
        Ok(firsts)
    }

    /// Notes the slot of each thing in its view that no earlier slot shows.
    fn note(&mut self, view: View<'_>, slot: usize) -> Result<(), AllocError>
        ensures { OnOk result ((t : Tuning) (log : List (Option Group))
            → IsView t (got [] log (slot + 1)) (view_of view.entry)
            → AreFirsts t log slot self.old → AreFirsts t log (slot + 1) self.new) }
    {
        for kind in 0..KINDS {
            self.note_kind(view, kind, slot)?;
        }
        Ok(())
    }

    /// Notes the slot of the thing of this kind in its view, if no earlier slot shows it.
    fn note_kind(&mut self, view: View<'_>, kind: usize, slot: usize) -> Result<(), AllocError>
        requires { kind < 4 }
        ensures { OnOk result ((t : Tuning) (log : List (Option Group))
            → IsView t (got [] log (slot + 1)) (view_of view.entry)
            → AreFirstsSoFar t log slot (view_of view.entry) kind self.old
            → AreFirstsSoFar t log slot (view_of view.entry) (kind + 1) self.new) }
    {
        let Some(thing) = Thing::of_kind(view, kind) else {
            return Ok(());
        };
        self.note_thing(thing, slot)?;
        Ok(())
    }

    /// Notes the slot of a thing, unless it has an earlier one.
    fn note_thing(&mut self, thing: Thing<'_>, slot: usize) -> Result<(), AllocError>
        requires { IsShortThing thing }
        ensures { OnOk result ((key : List ℕ) → slot_at self.new key
            ≡ if bytes_eq (key_of (thing_of thing.entry)) key then Some (unwrap_or (slot_at self.old key) slot)
            else slot_at self.old key) }
    {
        let key = key_of(thing);
        if self.slots.contains_key(&key) {
            return Ok(());
        }
        let _ = self.slots.insert(key, slot)?;
        Ok(())
    }

    /// Returns whether a receiver that loses nothing never shows the thing in the first slots.
    pub(crate) fn is_never_shown(&self, slots: usize, thing: Thing<'_>) -> bool
        requires { IsShortThing thing }
        ensures { (t : Tuning) (log : List (Option Group)) (n : ℕ) → slots ≤ n → AreFirsts t log n self.now
            → IsTrue result ↔ NeverShows t log slots (thing_of thing.entry) }
    {
        match self.slots.get(&key_of(thing)) {
            Some(first) => slots <= *first,
            None => true,
        }
    }
}
