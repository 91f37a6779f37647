//! The wire laws, from bytes to bytes.
ghost use Rattle.rds_wire.specs.FromTimes.{WhatSlotsWritesIsReceived};
ghost use Rattle.rds_wire.specs.Groups.{GroupsByOwnClockAreMessagesByIt, LateGroupsAreLateMessages};
ghost use Rattle.rds_wire.specs.Groups.{OtherGroupsAreNothing, WhatIsSentIsHeard};
ghost use Rattle.rds_wire.specs.Headline.{Headline};
ghost use Rattle.rds_wire.specs.Kept.{NothingNewIsKept, WhatIsKeptWasDisplayed, WhatIsKeptWasOnAir};
ghost use Rattle.rds_wire.specs.Mixes.{AMixIsShown};
ghost use Rattle.rds_wire.specs.NothingNew.{NothingNew};
ghost use Rattle.rds_wire.specs.Program.{WhatIsAskedForRan, WhatTheProgramDecodesIsPrinted};
ghost use Rattle.rds_wire.specs.Program.{WhatTheProgramEncodesIsSafe, WhatTheProgramPassesIsSafe};
ghost use Rattle.rds_wire.specs.Received.{WhoLosesSlotsReceives};
ghost use Rattle.rds_wire.specs.Safe.{WhatWasOnAirHadBegun};
ghost use Rattle.rds_wire.specs.Twice.{WhatIsEncodedIsSafeIfHeardTwice, WhatPassesIsSafeIfHeardTwice};
ghost use Rattle.rds_wire.specs.Twice.{WhoLosesSlotsReceivesForTwo};
ghost use Rattle.rds_wire.specs.Wire.{WhatIsEncodedIsSafeOnTheWire, WhatPassesIsSafeOnTheWire};

use rds_arrivals::filled_logs_are_own_clocks;
use rds_audit::{what_passes_as_a_recording_is_safe, what_passes_is_safe};
use rds_encoder::sent_is_of_what_is_on_air;
use rds_io::TellingRead;
use rds_log::filled_texts_are_logs;
use rds_safety::{
    one_source, own_clocks, plan_laws, safe_by_padded_plans, safe_by_plans, safe_if_confirmed,
};
use rds_world::{a_station_is_safe, the_encoder_is_lawful};

/// States the headline: whatever two receivers of the log of a script display in a slot was on air within the last
/// M + K slots, and it is one text or two that follow each other; names likewise. Each tag was in a row that was accepted
/// for the text beside it.
pub fn the_headline()
    ensures { Headline }
{
    what_is_encoded_is_safe_on_the_wire();
}

/// States the headline of audits: of a log to which `audit` said yes, no receiver displays a text or a name that a
/// receiver without a loss, with a dwell of M + K slots, did not display within the last M + K slots.
pub fn nothing_new_is_displayed()
    ensures { NothingNew }
{
    plan_laws();
    safe_by_padded_plans();
    what_passes_is_safe();
    what_passes_as_a_recording_is_safe();
}

/// States what `decode --keep N` displays: what `decode` without it displayed at most N slots before, a tag with its
/// text. So it may be old, but no mix. Of the log of a script, it was on air within the last M + K + N slots. Of a log
/// to which `audit` said yes, a receiver without a loss displayed it within the last M + K + N slots.
pub fn what_is_kept_was_displayed()
    ensures displayed { WhatIsKeptWasDisplayed }
    ensures on_air { WhatIsKeptWasOnAir }
    ensures nothing_new { NothingNewIsKept }
{
    the_headline();
    nothing_new_is_displayed();
}

/// States the law of scripts: what `decode` prints for the log that `encode` wrote, with slots lost and groups at most
/// K slots late, was on air by the script within the last M + K slots.
pub fn what_is_encoded_is_safe_on_the_wire()
    ensures { WhatIsEncodedIsSafeOnTheWire }
{
    own_clocks();
    one_source();
    safe_by_plans();
    safe_by_padded_plans();
    what_passes_as_a_recording_is_safe();
    a_station_is_safe();
    the_encoder_is_lawful();
    sent_is_of_what_is_on_air();
}

/// States the law of audits: a log to which `audit` said yes has lawful plans, and what `decode` prints for it, with
/// slots lost and groups at most K slots late, was on air by these plans within the last M + K slots.
pub fn what_passes_is_safe_on_the_wire()
    ensures { WhatPassesIsSafeOnTheWire }
{
    own_clocks();
    one_source();
    safe_by_plans();
    safe_by_padded_plans();
    what_passes_is_safe();
    what_passes_as_a_recording_is_safe();
}

/// States what "on air within the last M + K slots" means for a text or a name that is shown: its broadcast had begun,
/// and it ended less than M + K slots before.
pub fn what_was_on_air()
    ensures { WhatWasOnAirHadBegun }
{}

/// States two ways in which a log is received. A receiver that loses some slots of a log receives it, for any lateness,
/// also if it shows only what it heard twice. And what `slots` writes of a recording with times is received by a clock
/// of the receiver's own, if the delays of the groups vary by less than a slot less the grain. So the laws hold for
/// these logs.
pub fn what_is_received()
    ensures lost { WhoLosesSlotsReceives }
    ensures lost_for_two { WhoLosesSlotsReceivesForTwo }
    ensures filled { WhatSlotsWritesIsReceived }
{
    filled_logs_are_own_clocks();
    filled_texts_are_logs();
}

/// States the law of scripts for receivers that get wrong groups too, and show only what they heard twice within W
/// slots: what `decode --confirm W` prints for them was on air by the script within the last M + K + W - 1 slots.
pub fn what_is_encoded_is_safe_if_heard_twice()
    ensures { WhatIsEncodedIsSafeIfHeardTwice }
{
    one_source();
    safe_if_confirmed();
    a_station_is_safe();
    the_encoder_is_lawful();
    sent_is_of_what_is_on_air();
}

/// States the law of audits for such receivers: what `decode --confirm W` prints for a complete log to which `audit`
/// said yes with a lateness of K + W - 1 was on air, by lawful plans of the log, within the last M + K + W - 1 slots.
pub fn what_passes_is_safe_if_heard_twice()
    ensures { WhatPassesIsSafeIfHeardTwice }
{
    one_source();
    safe_if_confirmed();
    what_passes_is_safe();
}

/// States that receivers hear the messages of a station as late as they get its groups, or by the same clock of their
/// own. So the laws of rds_safety and rds_world, which speak of messages, hold for receivers of groups in C and Python.
/// A group of another programme is as nothing.
pub fn groups_are_heard_as_messages()
    ensures sent { WhatIsSentIsHeard }
    ensures others { OtherGroupsAreNothing }
    ensures late { LateGroupsAreLateMessages }
    ensures own_clock { GroupsByOwnClockAreMessagesByIt }
{}

/// States that the contract of `run_read` makes a run of a task: if its arguments ask for the task, and no write fails,
/// the task ran over this input and wrote this output, unless the program is out of memory.
pub fn what_is_asked_for_ran<R: TellingRead>()
    ensures { WhatIsAskedForRan R.remaining R.failures R.reads }
{}

/// States both laws for runs of the program: what the command `encode` writes is safe on the wire, and so is a log to
/// which the command `audit` says yes by status 0. What the command `decode` writes shows what the laws say of
/// receivers. A run of `encode` or `decode` may end at a fault. With status 0 `decode` read the whole log.
pub fn what_the_program_encodes_it_decodes_safely()
    ensures encodes { WhatTheProgramEncodesIsSafe }
    ensures audits { WhatTheProgramPassesIsSafe }
    ensures decodes { WhatTheProgramDecodesIsPrinted }
{
    what_is_encoded_is_safe_on_the_wire();
    what_passes_is_safe_on_the_wire();
    a_station_is_safe();
    the_encoder_is_lawful();
    sent_is_of_what_is_on_air();
}

/// States what a mix of `witness` means: the output of `decode` for the slots of the log without the lost ones, with
/// reasons or without, shows the mix in its slot.
pub fn what_a_mix_means()
    ensures { AMixIsShown }
{}
