//! Laws about all runs and views.
ghost use Rattle.std.specs.Prelude.{◌≡◌, ◌≤◌, ◌++◌, ◌∷◌, ℕ, suc, List, Option, Some, length};
ghost use Rattle.rds_block.specs.declared.group.Group.{Group};
ghost use Rattle.rds_receiver.specs.Chained.{IsChained};
ghost use Rattle.rds_receiver.specs.Receipts.{Segment, Tuning};
ghost use Rattle.rds_receiver.specs.Kept.{Moment, WasShown, kept};
ghost use Rattle.rds_receiver.specs.Run.{run};
ghost use Rattle.rds_receiver.specs.Shown.{IsView, ShownView};

/// States that the run is the longest last part of the received segments that is chained: with one flag, with
/// neighbours less than the dwell apart, and with the newest one less than the dwell ago.
#[tactic(auto, using(crate::proofs::Longest::run_chained, crate::proofs::Longest::run_last, crate::proofs::Longest::run_longest))]
pub fn run_is_the_longest()
    ensures last { (m t : ℕ) (segments : List Segment)
        → (older : List Segment) × (segments ≡ run m t segments ++ older) }
    ensures chained { (m t : ℕ) (segments : List Segment) → IsChained m t (run m t segments) }
    ensures longest { (m t : ℕ) (front older : List Segment) → IsChained m t front
        → length front ≤ length (run m t (front ++ older)) }
{}

/// States that an input has one view.
pub fn one_view()
    ensures { (t : Tuning) (input : List (Option Group)) (v w : ShownView)
        → IsView t input v → IsView t input w → v ≡ w }
{}

/// States what a display shows that keeps a text with its tags, or a name, for N slots: one that its receiver showed at
/// most N slots ago, and none since. It hides nothing that the receiver shows. For no slot it shows what the receiver
/// shows, and one that keeps for a slot more shows all of it.
#[tactic(auto, using(crate::specs::KeptLemmas::kept_was_shown, crate::specs::KeptLemmas::kept_shows_now, crate::specs::KeptLemmas::none_is_kept, crate::specs::KeptLemmas::kept_longer,))]
pub fn what_is_kept_was_shown()
    ensures texts { (n : ℕ) (moments : List (Moment ShownView)) (view : ShownView) → kept n moments ≡ Some view
        → WasShown n moments view }
    ensures names { (n : ℕ) (moments : List (Moment (List ℕ))) (name : List ℕ) → kept n moments ≡ Some name
        → WasShown n moments name }
    ensures shows_all { (n : ℕ) (now : Moment ShownView) (before : List (Moment ShownView)) (view : ShownView)
        → now.shown ≡ Some view → kept n (now ∷ before) ≡ Some view }
    ensures none { (now : Moment ShownView) (before : List (Moment ShownView)) → kept 0 (now ∷ before) ≡ now.shown }
    ensures longer { (n : ℕ) (moments : List (Moment ShownView)) (view : ShownView) → kept n moments ≡ Some view
        → kept (suc n) moments ≡ Some view }
{}
