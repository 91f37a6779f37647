//! The silence after a restart. No set is accepted in it.
ghost use Rattle.std.specs.Prelude.{◌≡◌, ℕ, List, Ok};
ghost use Rattle.rds_encoder.specs.Entries.{Move, restart_before, slot_of};
ghost use Rattle.rds_encoder.specs.Reply.{IsSetReply, IsTagsReply, unless_silent};
ghost use Rattle.rds_encoder.specs.EncoderAt.{silence_left};

use crate::Refusal;

/// Refuses each set while slots of the silence are left.
///
/// # Errors
///
/// `Silent`, with the number of slots left.
pub(crate) fn check_silence(left: u32) -> Result<(), Refusal>
    ensures of_a_set { IsSetReply result }
    ensures of_tags { IsTagsReply result }
    ensures reply { (m : ℕ) (moves : List Move) → left ≡ silence_left m moves
        → result ≡ unless_silent m (slot_of moves) (restart_before moves) (Ok tt) }
{
    match left {
        0 => Ok(()),
        slots => Err(Refusal::Silent(slots)),
    }
}
