//! Laws about a station and its receivers, whatever the slots are: the headline (receivers show only what was on air),
//! delivery, and the promises to receivers with the flag bit alone.
ghost use Rattle.rds_world.specs.Delivery.{ANameIsDelivered, ATextIsDelivered, AnyTextIsDelivered};
ghost use Rattle.rds_world.specs.Delivery.{AStationDeliversAName, AStationDeliversAText, AStationDeliversAnyText};
ghost use Rattle.rds_world.specs.FlagStation.{ARestartMixes, InOneLifeNothingIsAsked, NamesOfAStationAreNew};
ghost use Rattle.rds_world.specs.FlagStation.{NamesOfAStationAreOfTheirSource, TagsOfAStationAreOfTheirText};
ghost use Rattle.rds_world.specs.FlagStation.{TextsOfAStationAreNew, TextsOfAStationAreOfTheirSource};
ghost use Rattle.rds_world.specs.FlagStation.{TheEmptyTextIsEnough};
ghost use Rattle.rds_world.specs.FlagStation.{TheStationKeepsEach, TheStationTurnsTheFlag};
ghost use Rattle.rds_world.specs.SafeSlots.{EveryWorldShowsOnlyWhatWasOnAir};
ghost use Rattle.rds_world.specs.Station.{EachPairHasItsBroadcast, SlotsOfAWorldAreSlots, TheEncoderIsLawful};
ghost use Rattle.rds_world.specs.Station.{WhoHearsAStationIsSafe};
ghost use Rattle.rds_world.specs.ConfirmedStation.{WhoConfirmsAStationIsSafe};
ghost use Rattle.rds_world.specs.Wrong.{TheFitKeepThePremise};

use rds_encoder::{
    broadcasts_are_spaced, numbers_name_broadcasts, on_air_from_its_start_on, on_air_is_sent_whole,
    on_air_is_what_covers_the_slot, planned_is_what_was_on_air, sent_is_of_what_is_on_air,
};
use rds_safety::{often_is_enough, safe_by_plans, safe_by_the_flag, safe_if_confirmed};

/// States that the messages of an encoder are lawful for its plans, whatever it sets in its slots, and that each pair of
/// tags that it sends is of a text of its plan.
#[tactic(auto, using(std::proofs::lemmas::Bool::Decides::nat_tests, crate::proofs::LawfulStation::lawful_station, crate::proofs::LawfulStation::each_pair,))]
pub fn the_encoder_is_lawful()
    ensures lawful { TheEncoderIsLawful }
    ensures pairs { EachPairHasItsBroadcast }
{
    broadcasts_are_spaced();
    on_air_from_its_start_on();
    planned_is_what_was_on_air();
    sent_is_of_what_is_on_air();
}

/// States the headline for each station, with any number of sets in a slot, and for any number of receivers. The slots
/// of a world are a case of this.
pub fn a_station_is_safe()
    ensures safe { WhoHearsAStationIsSafe }
    ensures world { SlotsOfAWorldAreSlots }
{
    the_encoder_is_lawful();
    safe_by_plans();
}

/// States the headline: the receivers of each world show only what was on air.
#[tactic(auto, using(crate::proofs::SafeWorld::safe_world))]
pub fn only_what_was_on_air_is_shown()
    ensures { EveryWorldShowsOnlyWhatWasOnAir }
{
    the_encoder_is_lawful();
    safe_by_plans();
    safe_if_confirmed();
}

/// States that a world refuses exactly the wrong groups that break the premise: any without a window; with a window of
/// W slots a segment or a pair of tags that was wrong less than W slots before.
#[tactic(auto, using(crate::proofs::Received::fit_keeps))]
pub fn what_is_fit_keeps_the_premise()
    ensures { TheFitKeepThePremise }
{}

/// States the headline for receivers that get wrong groups and show only what they heard twice.
pub fn a_confirmed_station_is_safe()
    ensures { WhoConfirmsAStationIsSafe }
{
    the_encoder_is_lawful();
    safe_if_confirmed();
}

/// States that a receiver shows a broadcast if it got on time each free one of some slots of it, at most M slots. For a
/// text of n segments 2n free slots are enough, for any text 32, for a name eight. The laws hold for each station, and
/// so for a world.
pub fn on_air_is_delivered()
    ensures text { ATextIsDelivered }
    ensures any_text { AnyTextIsDelivered }
    ensures name { ANameIsDelivered }
    ensures station_text { AStationDeliversAText }
    ensures station_any_text { AStationDeliversAnyText }
    ensures station_name { AStationDeliversAName }
{
    the_encoder_is_lawful();
    broadcasts_are_spaced();
    numbers_name_broadcasts();
    on_air_from_its_start_on();
    on_air_is_what_covers_the_slot();
    on_air_is_sent_whole();
}

/// States that an encoder turns the flag with each text or name that it accepts, and keeps each for 2d slots if another
/// one follows. After a restart the empty text has to come first, or the newest text or name with flag 0 again, unless
/// the newest one has flag 1 and lasted for 2d slots. Without a restart nothing has to come first.
pub fn the_station_turns_the_flag()
    ensures turns { TheStationTurnsTheFlag }
    ensures keeps { TheStationKeepsEach }
    ensures empty { TheEmptyTextIsEnough }
    ensures one_life { InOneLifeNothingIsAsked }
{}

/// States what a receiver with the flag bit alone shows: only texts and names that the station set, if it hears a
/// segment in each 2d slots of a broadcast; and only tags of the text shown, if it hears one in each d slots. What
/// comes first after a restart has to be safe, as in `the_station_turns_the_flag`.
pub fn a_station_is_safe_by_the_flag()
    ensures texts { TextsOfAStationAreOfTheirSource }
    ensures names { NamesOfAStationAreOfTheirSource }
    ensures tags { TagsOfAStationAreOfTheirText }
    ensures new_texts { TextsOfAStationAreNew }
    ensures new_names { NamesOfAStationAreNew }
{
    the_encoder_is_lawful();
    safe_by_the_flag();
    often_is_enough();
}

/// States that a receiver with the flag bit alone can show a text that nobody set, although it loses nothing, if
/// another text than the empty one comes first after a restart.
pub fn a_restart_mixes()
    ensures { ARestartMixes }
{}
