//! The hold of a service: when it takes its next text or name, and with which flag.
ghost use Rattle.std.specs.Prelude.{◌≡◌, ◌+◌, ℕ, Bool, List, [], ◌∷◌, Some, Ok, OnErr, OnOk, nat_le};
ghost use Rattle.rds_encoder.specs.Entries.{Move, Begin, Set, End, slot_of};
ghost use Rattle.rds_encoder.specs.Plan.{OnAir, on_air};
ghost use Rattle.rds_encoder.specs.Reply.{IsSetReply, held_reply, last_accepted, reply_to};
ghost use Rattle.rds_encoder.specs.EncoderAt.{HoldsBack};

use crate::Refusal;
use rds_fields::Distance;

/// For how many more slots a service holds its next set back, and the flag of that set.
#[repr(C)]
#[derive(Clone, Copy)]
pub struct Hold {
    pub left: u32,
    pub next_flag: u8,
}

impl Hold {
    /// Makes the hold of a service with nothing on air.
    pub(crate) fn none() -> Hold
        ensures first { (m : ℕ) → HoldsBack m result [] }
        ensures again { (m : ℕ) (moves : List Move) → HoldsBack m result (Begin ∷ moves) }
    {
        Hold {
            left: 0,
            next_flag: 0,
        }
    }

    /// Accepts a set: it goes on air with the other flag, and holds the next one back for 2 (M + K) slots.
    ///
    /// # Errors
    ///
    /// `Held` with the number of slots left, if the one before holds it back. Nothing changes.
    pub(crate) fn set(&mut self, distance: Distance) -> Result<(), Refusal>
        ensures kind { IsSetReply result }
        ensures reply { (m : ℕ) (moves : List Move) → HoldsBack m self.old moves
            → result ≡ held_reply m (slot_of moves) (last_accepted m moves) }
        ensures kept { OnErr result (self.new ≡ self.old) }
        ensures hold { OnOk result ((moves : List Move) (x : List ℕ)
            → HoldsBack distance self.old moves → reply_to distance moves ≡ Ok tt
            → HoldsBack distance self.new (Set x ∷ moves)) }
    {
        if self.left > 0 {
            return Err(Refusal::Held(self.left));
        }
        self.left = 2 * distance.get();
        self.next_flag = u8::from(self.next_flag == 0);
        Ok(())
    }

    /// Ends a slot.
    pub(crate) fn end_slot(&mut self)
        ensures { (m : ℕ) (free : Bool) (moves : List Move) → HoldsBack m self.old moves
            → HoldsBack m self.new (End free ∷ moves) }
    {
        self.left = self.left.saturating_sub(1);
    }

    /// Returns the flag of the text or name on air.
    #[tactic(auto, using(crate::proofs::OnAir::flag_on_air))]
    pub(crate) fn flag(&self) -> bool
        ensures { (m : ℕ) (moves : List Move) (air : OnAir) → HoldsBack m self.now moves
            → on_air m moves ≡ Some air → result ≡ air.flag }
    {
        self.next_flag == 0
    }

    /// Returns whether the text or name on air has been so for M + K slots, the distance.
    pub(crate) fn has_lasted(&self, distance: u32) -> bool
        ensures { (moves : List Move) (air : OnAir) → HoldsBack distance self.now moves
            → on_air distance moves ≡ Some air → result ≡ nat_le (air.start + distance) (slot_of moves) }
    {
        self.left <= distance
    }
}
