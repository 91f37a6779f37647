//! The laws of witnesses.
ghost use Rattle.std.specs.Prelude.{◌≡◌, ◌<◌, ◌∷◌, [], ℕ, List, Option, Some, length, reverse};
ghost use Rattle.rds_block.specs.declared.group.Group.{Group};
ghost use Rattle.rds_fields.specs.declared.message.Message.{Message};
ghost use Rattle.rds_receiver.specs.Receipts.{name_fragment, text_fragment};
ghost use Rattle.rds_receiver.specs.declared.fragment.Fragment.{Fragment};
ghost use Rattle.rds_receiver.specs.Run.{run_at};
ghost use Rattle.rds_receiver.specs.Shown.{IsNameShown, IsTextShown};
ghost use Rattle.rds_witness.specs.Lost.{got};
ghost use Rattle.rds_witness.specs.Part.{IsPart, IsTagPart};

/// Shows that a receiver that loses nothing gets exactly the slots of the log.
pub fn who_loses_nothing_gets_the_log()
    ensures { (log : List (Option Group)) → got [] log (length log) ≡ reverse log }
{}

/// Shows that a receiver whose run is a part of another one's shows no text or name that the other one does not show,
/// and that its run and its tags stay a part in the next slot, whatever both hear.
pub fn a_part_shows_no_more()
    ensures stays { (pick : Message → Option Fragment) (m : ℕ) (x : Option Message)
        (one other : List (Option Message)) → 0 < m → length one ≡ length other
        → IsPart (run_at pick m 0 one) (run_at pick m 0 other)
        → IsPart (run_at pick m 0 (x ∷ one)) (run_at pick m 0 (x ∷ other)) }
    ensures tags_stay { (m : ℕ) (x : Option Message) (one other : List (Option Message)) → 0 < m
        → length one ≡ length other → IsPart (run_at text_fragment m 0 one) (run_at text_fragment m 0 other)
        → IsTagPart m 0 one other → IsTagPart m 0 (x ∷ one) (x ∷ other) }
    ensures texts { (m : ℕ) (one other : List (Option Message)) (x : List ℕ)
        → IsPart (run_at text_fragment m 0 one) (run_at text_fragment m 0 other)
        → IsTextShown m 0 one (Some x) → IsTextShown m 0 other (Some x) }
    ensures names { (m : ℕ) (one other : List (Option Message)) (x : List ℕ)
        → IsPart (run_at name_fragment m 0 one) (run_at name_fragment m 0 other)
        → IsNameShown m 0 one (Some x) → IsNameShown m 0 other (Some x) }
{}
