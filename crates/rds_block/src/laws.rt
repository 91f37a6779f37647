//! A law about all groups and words.
ghost use Rattle.std.specs.Prelude.{◌≡◌, ℕ, List};
ghost use Rattle.rds_block.specs.declared.group.Group.{Group};
ghost use Rattle.rds_block.specs.Words.{AreWordsOf};

/// States that words and fields are one to one: four words make one group, and a group has one list of words. So
/// `from_blocks` and `to_blocks` are inverse to each other.
#[tactic(auto, using(crate::specs::SecondWord::same_group))]
pub fn words_are_one_to_one()
    ensures one_group { (words : List ℕ) (g h : Group) → AreWordsOf words g → AreWordsOf words h
        → g ≡ h }
    ensures one_list { (v w : List ℕ) (g : Group) → AreWordsOf v g → AreWordsOf w g → v ≡ w }
{}
