//! A search over all bursts at once, by a few receivers that together hold all that any receiver with one burst holds.
ghost use Rattle.std.specs.Prelude.{◌≡◌, ◌+◌, [], ℕ, All, List, None, OnOk, Option};
ghost use Rattle.rds_block.specs.declared.group.Group.{Group};
ghost use Rattle.rds_receiver.specs.Receipts.{tuned};
ghost use Rattle.rds_witness.specs.Lost.{group_left};
ghost use Rattle.rds_witness.specs.Search.{IsChecked, ShowOnlySeen, StandsAfter};

use crate::burst::Burst;
use crate::covering::{Lossy, keep, keep_after_slot, lose_first, take_slot};
use rds_block::Blocks;
use rds_fields::Dwell;
use rds_receiver::Receiver;
use std::alloc::{AllocError, Global};
use std::mem;

/// The receivers of a search.
#[derive(Drop)]
pub(crate) struct Sweep {
    /// The receiver that loses nothing. Its `burst` and `changed` have no meaning.
    pub(crate) whole: Lossy,
    /// The receiver that begins to lose slots in the newest slot.
    begins: Lossy,
    /// Receivers that lose slots now.
    pub(crate) losing: Vec<Lossy>,
    /// Receivers that hear again.
    pub(crate) hearing: Vec<Lossy>,
    /// The memory of the next list, so that a slot allocates nothing.
    spare: Vec<Lossy>,
}

impl Sweep {
    /// Returns the receivers before the first slot.
    pub(crate) fn new(alloc: Global, pi: u16, dwell: Dwell) -> Sweep
        ensures none { (result.losing.items ≡ []) × (result.hearing.items ≡ []) }
        ensures stands { (log : List (Option Group)) → StandsAfter (tuned pi dwell) log 0 result }
    {
        let whole = Lossy {
            receiver: Receiver::new(pi, dwell),
            burst: Burst { first: 0, last: 0 },
            changed: true,
        };
        let begins = whole;
        Sweep {
            begins,
            whole,
            losing: Vec::new(alloc),
            hearing: Vec::new(alloc),
            spare: Vec::new(alloc),
        }
    }

    /// Lets all receivers hear this slot, and lets those that lose slots now, and one more, lose it.
    pub(crate) fn next(
        &mut self,
        alloc: Global,
        group: &Option<Blocks>,
        slot: usize,
    ) -> Result<(), AllocError>
        ensures stands { OnOk result ((pi m n : ℕ) (log : List (Option Group)) → group.now ≡ group_left [] log n
            → StandsAfter (tuned pi m) log n self.old → StandsAfter (tuned pi m) log (n + 1) self.new) }
        ensures checked { OnOk result ((pi m n k : ℕ) (log : List (Option Group))
            → StandsAfter (tuned pi m) log n self.old
            → ShowOnlySeen (tuned pi m) log k self.old.losing.items
            → ShowOnlySeen (tuned pi m) log k self.old.hearing.items
            → All (IsChecked (tuned pi m) log k) self.new.losing.items
            × All (IsChecked (tuned pi m) log k) self.new.hearing.items) }
    {
        lose_first(&mut self.begins, &self.whole, slot);
        take_slot(&mut self.whole, *group, None);
        let mut hearing = mem::replace(&mut self.spare, Vec::new(alloc));
        hearing.clear();
        keep_after_slot(
            &self.whole,
            self.hearing.as_slice(),
            group,
            None,
            &mut hearing,
        )?;
        keep_after_slot(
            &self.whole,
            self.losing.as_slice(),
            group,
            None,
            &mut hearing,
        )?;
        let mut losing = mem::replace(&mut self.hearing, hearing);
        losing.clear();
        keep(&self.whole, &mut losing, &self.begins)?;
        keep_after_slot(
            &self.whole,
            self.losing.as_slice(),
            &None,
            Some(slot),
            &mut losing,
        )?;
        self.spare = mem::replace(&mut self.losing, losing);
        Ok(())
    }

    /// Returns the square of the number of kept receivers: about the comparisons of a slot.
    pub(crate) fn comparisons(&self) -> u64 {
        let receivers = self.losing.len().saturating_add(self.hearing.len()) as u64;
        receivers.saturating_mul(receivers)
    }
}
