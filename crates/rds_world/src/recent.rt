//! A ring of the groups of the last K + 1 slots.
ghost use Rattle.std.specs.Prelude.{◌≡◌, ◌+◌, [], ◌∷◌, None, IfOk, slice_index_or, take};
ghost use Rattle.circular_buffer.specs.Buffer.{buffer};

use circular_buffer::HeapCircularBuffer;
use rds_block::Blocks;
use rds_fields::Late;
use std::alloc::{AllocError, Global};
use std::marker::Model;

/// A ring of the groups of the last K + 1 slots, the newest first. A slot in which nothing was sent has `None`.
#[derive(Drop)]
pub(crate) struct Recent {
    groups: HeapCircularBuffer<Option<Blocks>>,
}

impl Model for Recent {
    ghost use Rattle.std.specs.Prelude.{Option};
    ghost use Rattle.rds_block.specs.declared.group.Group.{Group};
    ghost use Rattle.circular_buffer.specs.Buffer.{Buffer};

    ghost Value = { Buffer (Option Group) };

    ghost view = { λ r. r.groups };
}

impl Recent {
    /// Makes an empty ring of K + 1 places.
    ///
    /// # Errors
    ///
    /// [`AllocError`] if out of memory.
    pub(crate) fn new(alloc: Global, late: Late) -> Result<Recent, AllocError>
        ensures { IfOk result (λ r. r ≡ buffer [] (late + 1)) }
    {
        let places = usize::from(late.get()) + 1;
        Ok(Recent {
            groups: HeapCircularBuffer::with_capacity(alloc, places)?,
        })
    }

    /// Adds the group of one more slot. A full ring drops its oldest group.
    pub(crate) fn push(&mut self, group: Option<Blocks>)
        ensures { self.new
            ≡ buffer (take self.old.capacity (group ∷ self.old.items)) self.old.capacity }
    {
        self.groups.push_front(group);
    }

    /// Returns the group sent this many slots before the newest one, whose group is `newest`. `None` if nothing was
    /// sent, or if the ring does not go back so far. Most groups come in their own slot, so the ring is read once for
    /// all receivers.
    pub(crate) fn back_from(&self, newest: &Option<Blocks>, slots: u16) -> Option<Blocks>
        requires { newest.now ≡ slice_index_or self.now.items 0 None }
        ensures { result ≡ slice_index_or self.now.items slots None }
    {
        if slots == 0 {
            *newest
        } else {
            self.back(slots)
        }
    }

    /// Returns the group sent this many slots before the newest one. `None` if nothing was sent, or if the ring does
    /// not go back so far.
    #[tactic(auto, using(std::proofs::lemmas::Bool::Decides::nat_tests, std::proofs::lemmas::Option::get_or_from_slice_get, crate::proofs::Received::nothing_there))]
    pub(crate) fn back(&self, slots: u16) -> Option<Blocks>
        ensures { result ≡ slice_index_or self.now.items slots None }
    {
        *self.groups.get(usize::from(slots))?
    }
}
