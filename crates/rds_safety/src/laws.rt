//! Laws about all plans, logs and inputs: when views are safe, and that no bound can be looser.
ghost use Rattle.rds_safety.specs.FlagLaws.{NamesByFlagAreNew, NamesByFlagAreOfTheirSource, NamesWithADwellAreNew};
ghost use Rattle.rds_safety.specs.FlagLaws.{NewSourcesAreNear, TextsWithADwellAreNew};
ghost use Rattle.rds_safety.specs.FlagLaws.{TagsByFlagAreOfTheirText, TextsByFlagAreHeldAlone, TextsByFlagAreNew};
ghost use Rattle.rds_safety.specs.FlagLaws.{TextsByFlagAreOfTheirSource};
ghost use Rattle.rds_safety.specs.FlagLaws.{TheFlagAloneIsADwellWhileHeard, TheFlagAloneIsALongDwell};
ghost use Rattle.rds_safety.specs.FlagLaws.{WhoGetsSomeHearsOneIn};
ghost use Rattle.rds_safety.specs.FlagLaws.{WhoHearsOneInHearsEach};
ghost use Rattle.rds_safety.specs.FlagLaws.{WhoHearsOneInHearsTextBeforeTags, WhoLosesFewGetsSome};
ghost use Rattle.rds_safety.specs.Laws.{ARunHasOneSource, ASlowClockIsAnOwnClock};
ghost use Rattle.rds_safety.specs.Laws.{LateIsBySlowClock, LawfulPlansAreSafe, LawfulPlansAreSafeByOwnClocks};
ghost use Rattle.rds_safety.specs.Laws.{LawfulPlansAreSafeForSlowClocks, LawfulPlansAreSafeNear};
ghost use Rattle.rds_safety.specs.Laws.{LawfulIsLawfulPadded, LawfulPlansAreSafeAs, LawfulPlansAreSafeByOwnClocksAs};
ghost use Rattle.rds_safety.specs.Laws.{LawfulPlansAreSafeForSlowClocksAs, LawfulPlansAreSafeNearAs};
ghost use Rattle.rds_safety.specs.Laws.{NoSlotLateIsOnTime, OnTimeIsNoSlotLate, OneSlotLessMixes};
ghost use Rattle.rds_safety.specs.Laws.{PlanLaws, TheTrueClockIsNoSlotLate};
ghost use Rattle.rds_safety.specs.Kept.{WhatIsKeptWasSafe};
ghost use Rattle.rds_safety.specs.Lawful.{padded_texts, texts};
ghost use Rattle.rds_safety.specs.ConfirmedLaws.{LawfulPlansAreSafeConfirmed};
ghost use Rattle.rds_safety.specs.ConfirmedLaws.{WhoConfirmsListensNear};
ghost use Rattle.rds_safety.specs.ConfirmedLaws.{WhoHearsBothSegmentsTwiceShowsTheName};
ghost use Rattle.rds_safety.specs.ConfirmedLaws.{WhoHearsEachSegmentTwiceShowsTheText};

use rds_encoder::{broadcasts_are_spaced, numbers_name_broadcasts};

/// States that lawful plans make each slot safe for any number of receivers:
///
/// - plans lawful for M + K, if no group comes more than K slots late, or if each receiver's clock counts at most K
///   slots too few within M;
/// - plans lawful for d, if fewer than M slots of each receiver's own clock are fewer than d slots of the station.
pub fn safe_by_plans()
    ensures near { LawfulPlansAreSafeNear }
    ensures own_clocks { LawfulPlansAreSafeByOwnClocks }
    ensures slow_clocks { LawfulPlansAreSafeForSlowClocks }
    ensures late { LawfulPlansAreSafe }
{
    plan_laws();
}

/// States the same for plans of texts with padding: behind the carriage return of a text its encoder may send any
/// bytes.
/// What is lawful without padding is lawful with it.
pub fn safe_by_padded_plans()
    ensures near { LawfulPlansAreSafeNearAs padded_texts }
    ensures own_clocks { LawfulPlansAreSafeByOwnClocksAs padded_texts }
    ensures slow_clocks { LawfulPlansAreSafeForSlowClocksAs padded_texts }
    ensures late { LawfulPlansAreSafeAs padded_texts }
    ensures wider { LawfulIsLawfulPadded }
{
    plan_laws();
}

/// States that a run has at most one source.
pub fn one_source()
    ensures { ARunHasOneSource }
{
    plan_laws();
}

/// States the laws of rds_encoder about all plans, as one record.
pub fn plan_laws()
    ensures { PlanLaws }
{
    broadcasts_are_spaced();
    numbers_name_broadcasts();
}

/// States that an input is heard zero slots late exactly if each entry is that of the log in its slot, or nothing.
pub fn on_time()
    ensures each { NoSlotLateIsOnTime }
    ensures own { OnTimeIsNoSlotLate }
{}

/// States three facts about clocks. A slow clock is an own clock. An input that comes late is one by a slow clock. A
/// receiver counts the station's slots exactly if it hears zero slots late.
pub fn own_clocks()
    ensures slow { ASlowClockIsAnOwnClock }
    ensures late { LateIsBySlowClock }
    ensures no_slot_late { TheTrueClockIsNoSlotLate }
{}

/// States that one slot less of spacing, M + K - 1, is not enough: there are plans, a log and a receiver that shows a
/// text of no broadcast.
#[tactic(auto, using(crate::proofs::Least::one_slot_less))]
pub fn the_dwell_is_the_least()
    ensures { OneSlotLessMixes }
{}

/// States what holds for receivers that get wrong groups and show only what they heard twice within W slots, if no
/// segment and no pair of tags is wrong twice within W slots:
///
/// - plans lawful for M + K + W - 1 make each slot safe, if W > 1;
/// - a text or name is shown if each of its segments came twice, less than W slots apart, within M slots of a broadcast
///   in which the receiver heard nothing wrong and nothing late.
pub fn safe_if_confirmed()
    ensures near { WhoConfirmsListensNear }
    ensures safe { LawfulPlansAreSafeConfirmed }
    ensures text { WhoHearsEachSegmentTwiceShowsTheText }
    ensures name { WhoHearsBothSegmentsTwiceShowsTheName }
{
    plan_laws();
}

/// States what a receiver with the flag bit alone shows: no mix, if it hears a segment of each broadcast, and if each
/// broadcast turns the flag, keeps the bytes or is the empty text.
pub fn safe_by_the_flag()
    ensures texts { TextsByFlagAreOfTheirSource }
    ensures names { NamesByFlagAreOfTheirSource }
    ensures held { TextsByFlagAreHeldAlone }
    ensures tags { TagsByFlagAreOfTheirText }
    ensures new_texts { TextsByFlagAreNew }
    ensures new_names { NamesByFlagAreNew }
    ensures texts_with_a_dwell { TextsWithADwellAreNew }
    ensures names_with_a_dwell { NamesWithADwellAreNew }
    ensures neighbours { NewSourcesAreNear }
{
    plan_laws();
    numbers_name_broadcasts();
}

/// States when this is so, in slots: if each broadcast lasts for n slots, a segment in each n slots in a row is enough,
/// and for tags one in each d slots in a row. Other clauses give the slots that a receiver may lose.
pub fn often_is_enough()
    ensures each { WhoHearsOneInHearsEach }
    ensures tags { WhoHearsOneInHearsTextBeforeTags }
    ensures in_a_row { WhoGetsSomeHearsOneIn }
    ensures losses { WhoLosesFewGetsSome }
{
    plan_laws();
}

/// States that a receiver with the flag bit alone shows the same as one with a dwell of m slots, if no m slots went by
/// without a segment of a text, nor without one of a name. This is so if m is no less than the slot after its input.
pub fn the_flag_alone_is_a_long_dwell()
    ensures heard { TheFlagAloneIsADwellWhileHeard }
    ensures long { TheFlagAloneIsALongDwell }
{}

/// States that a display that keeps a text with its tags, or a name, for N slots is safe, if no group comes more than K
/// slots late, and the plans are lawful for M + K. Its receiver showed what it shows safely, at most N slots before. So each
/// text and name was on air within the last M + K + N slots.
pub fn what_is_kept_was_safe()
    ensures late { WhatIsKeptWasSafe texts }
    ensures padded { WhatIsKeptWasSafe padded_texts }
{
    safe_by_plans();
    safe_by_padded_plans();
}
