//! Laws about all messages and groups.
ghost use Rattle.std.specs.Prelude.{◌≡◌, ◌≢◌, ℕ};
ghost use Rattle.rds_block.specs.declared.group.Group.{Group};
ghost use Rattle.rds_fields.specs.declared.head.Head.{Head};
ghost use Rattle.rds_fields.specs.declared.message.Message.{Message};
ghost use Rattle.rds_fields.specs.declared.message.Message.TheVariants.{Other};
ghost use Rattle.rds_fields.specs.Spells.{Spells};
ghost use Rattle.rds_fields.specs.Canonical.{IsWritten};
ghost use Rattle.rds_fields.specs.TagGroup.{MayCarryTags, exchanged};

/// States that a group spells one message. So the group written for a message is read as that message again.
#[tactic(auto, using(crate::specs::OneMessage::same_message))]
pub fn one_message()
    ensures { (m n : Message) (g : Group) → Spells m g → Spells n g → m ≡ n }
{}

/// States that one group is written for a message and a head.
pub fn one_group()
    ensures { (m : Message) (head : Head) (g h : Group)
        → m ≢ Other → IsWritten m head g → IsWritten m head h → g ≡ h }
{}

/// States that two group types that are exchanged twice are as before, and that 11A is exchanged with itself: then
/// nothing changes.
#[tactic(auto, using(crate::proofs::Exchange::exchanged_twice, crate::proofs::Exchange::nothing_exchanged))]
pub fn an_exchange_is_its_own_inverse()
    ensures inverse { (n : ℕ) (g : Group) → MayCarryTags n → exchanged n (exchanged n g) ≡ g }
    ensures usual { (g : Group) → exchanged 11 g ≡ g }
{}
