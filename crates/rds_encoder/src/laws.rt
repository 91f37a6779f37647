//! Laws about all broadcasts, and about all that is sent.
ghost use Rattle.rds_encoder.specs.Delivery.{ANameIsSentWhole, ATextIsSentWhole};
ghost use Rattle.rds_encoder.specs.Laws.{ANameSegmentIsOfTheNameOnAir, ANumberIsBelowTheLength};
ghost use Rattle.rds_encoder.specs.Laws.{ANumberNamesOne, ATextSegmentIsOfTheTextOnAir, EachNumberNamesOne};
ghost use Rattle.rds_encoder.specs.Laws.{EvenTurnsAreTheTexts, OnlyWhatIsOnAirCoversTheSlot, SpacedAreFarApart};
ghost use Rattle.rds_encoder.specs.Laws.{SpacedAreInOrder, SpacedOfOneFlagAreFarApart, TagsAreOfTheTextOnAir};
ghost use Rattle.rds_encoder.specs.Laws.{ThePairEndsInTheText, ThePlanIsSpaced, WhatIsOnAirBegan};
ghost use Rattle.rds_encoder.specs.Laws.{WhatIsOnAirCoversTheSlot, WhatIsOnAirIsPlanned};
ghost use Rattle.rds_encoder.specs.Laws.{WhatIsOnAirWasOnAir, WhatIsPlannedWasAccepted, WhatWasOnAirStaysPlanned};

/// States that the text or name on air in the current slot is the broadcast of the plan that covers the slot. If none
/// covers it, nothing is on air.
#[tactic(auto, using(crate::proofs::OnAir::covers_now, crate::proofs::OnAir::planned, crate::proofs::OnAir::air_since))]
pub fn on_air_is_what_covers_the_slot()
    ensures planned { WhatIsOnAirIsPlanned }
    ensures covers { WhatIsOnAirCoversTheSlot }
    ensures only { OnlyWhatIsOnAirCoversTheSlot }
{}

/// States that the text or name on air began after the silence, and was on air in each slot since.
#[tactic(auto, using(crate::proofs::OnAir::was_on_air, crate::proofs::OnAir::air_since))]
pub fn on_air_from_its_start_on()
    ensures began { WhatIsOnAirBegan }
    ensures was { WhatIsOnAirWasOnAir }
{}

/// States that a text or name that was on air when a slot ended stays planned, whatever came later, and that each
/// planned broadcast was accepted.
#[tactic(auto, using(crate::proofs::OnAir::stays_planned, crate::proofs::OnAir::was_accepted))]
pub fn planned_is_what_was_on_air()
    ensures stays { WhatWasOnAirStaysPlanned }
    ensures accepted { WhatIsPlannedWasAccepted }
{}

/// States that broadcasts do not overlap, and that neighbours have different flags or are at least d slots apart. So
/// are any two with one flag, and any two with another one between them.
#[tactic(auto, using(crate::proofs::Spacing::far_apart, crate::proofs::Spacing::one_flag_apart, crate::proofs::Spacing::ordered, crate::proofs::Spacing::spaced))]
pub fn broadcasts_are_spaced()
    ensures spaced { ThePlanIsSpaced }
    ensures order { SpacedAreInOrder }
    ensures far { SpacedAreFarApart }
    ensures one_flag { SpacedOfOneFlagAreFarApart }
{}

/// States that each number below the length of a plan names exactly one broadcast.
#[tactic(auto, using(crate::proofs::Spacing::below, crate::proofs::Spacing::only_one, crate::proofs::Spacing::there))]
pub fn numbers_name_broadcasts()
    ensures one { ANumberNamesOne }
    ensures below { ANumberIsBelowTheLength }
    ensures each { EachNumberNamesOne }
{}

/// States that each segment and each pair of tags that is sent is of the text or name on air, and that the pair on air
/// ends in its text.
#[tactic(auto, using(crate::proofs::Delivering::name_sent, crate::proofs::Delivering::pair_fits, crate::proofs::Delivering::tags_sent, crate::proofs::Delivering::text_sent))]
pub fn sent_is_of_what_is_on_air()
    ensures text { ATextSegmentIsOfTheTextOnAir }
    ensures name { ANameSegmentIsOfTheNameOnAir }
    ensures tags { TagsAreOfTheTextOnAir }
    ensures ends { ThePairEndsInTheText }
{}

/// States that the turns with an even number are the text's.
#[tactic(auto, using(crate::proofs::Turns::even_is_text))]
pub fn even_turns_are_the_texts()
    ensures { EvenTurnsAreTheTexts }
{}

/// States that a text on air sends each of its segments in twice as many free slots as it has segments, and that a name
/// on air sends both of its own in eight free slots.
#[tactic(auto, using(crate::proofs::Delivering::name_sent_whole, crate::proofs::Delivering::text_sent_whole))]
pub fn on_air_is_sent_whole()
    ensures text { ATextIsSentWhole }
    ensures name { ANameIsSentWhole }
{}
