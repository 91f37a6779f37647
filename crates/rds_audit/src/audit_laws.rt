//! Laws about all logs that are audited: when a log passes, that it has one fault at most, what is safe if it passes,
//! and what the list of its faults judges.
ghost use Rattle.rds_audit.specs.AuditLaws.{BroadcastsAreTheReigns, PassesExactlyByPlans, PlansOfARecordingAreSafe};
ghost use Rattle.rds_audit.specs.AuditLaws.{WhatHasAFaultDoesNotPass, WhatPassesAsARecordingIsSafe};
ghost use Rattle.rds_audit.specs.AuditLaws.{WhatPassesIsSafe};
ghost use Rattle.rds_audit.specs.Broken.{FaultsBreakTheirRules};
ghost use Rattle.rds_audit.specs.FlagLaws.{WhatPassesIsSafeByTheFlag, WithoutPauseFlagsAlternate};
ghost use Rattle.rds_audit.specs.ListingLaws.{SpansAreReigns, WhatHasNoFaultPasses, WhatPassesAddsNothing};
ghost use Rattle.rds_audit.specs.Forms.{text_kind};
ghost use Rattle.rds_audit.specs.Lengths.{gauge_of, name_gauge};
ghost use Rattle.rds_audit.specs.declared.text_form.TextForm.{TextForm};
ghost use Rattle.rds_safety.specs.Lawful.{names};

use rds_safety::{own_clocks, plan_laws, safe_by_padded_plans, safe_by_plans, safe_by_the_flag};

/// States that a log passes exactly if it has plans of texts and of names that are lawful and dense.
pub fn passes_by_plans()
    ensures { PassesExactlyByPlans }
{
    plan_laws();
}

/// States that for each lawful and dense plan, the broadcasts with a sent segment are the reigns, in order.
pub fn broadcasts_are_the_reigns()
    ensures texts { (form : TextForm) → BroadcastsAreTheReigns (text_kind form) }
    ensures names { BroadcastsAreTheReigns names }
{
    plan_laws();
}

/// States that the views of all receivers of a log that passes are safe, whatever they lose and whenever they restart.
pub fn what_passes_is_safe()
    ensures { WhatPassesIsSafe }
{
    passes_by_plans();
    safe_by_plans();
    safe_by_padded_plans();
}

/// States that plans which are lawful for what the audit judges of a recording make the views of all receivers of the
/// recording safe, and that a recording that passes has such plans. They are receivers of the log as it is: they may
/// hear the tags before its first text segment.
pub fn what_passes_as_a_recording_is_safe()
    ensures by_plans { PlansOfARecordingAreSafe }
    ensures passes { WhatPassesAsARecordingIsSafe }
{
    passes_by_plans();
    safe_by_plans();
    safe_by_padded_plans();
    own_clocks();
}

/// States that a log passes exactly if it has no fault, and that the slot with its fault breaks the rule of that name.
#[tactic(auto, using(crate::proofs::Breaking::verdicts))]
pub fn passes_without_a_fault()
    ensures fails { WhatHasAFaultDoesNotPass }
    ensures passes { WhatHasNoFaultPasses }
    ensures breaks { FaultsBreakTheirRules }
{}

/// States a promise to receivers with the flag bit alone: if the flag of a log that passes turns from each reign to the
/// next, and they hear a segment of each reign, they show only texts, names and tags of the plans. The flag always
/// turns so if each segment except the first comes less than d slots after a segment or tags.
#[tactic(auto, using(crate::proofs::PassedLogs::safe_by_flag, crate::proofs::PassedLogs::alternate))]
pub fn what_passes_is_safe_by_the_flag()
    ensures safe { WhatPassesIsSafeByTheFlag }
    ensures without_pause { WithoutPauseFlagsAlternate }
{
    plan_laws();
    safe_by_the_flag();
}

/// States that up to the first fault the list of a log judges the reigns of the log, and is empty.
#[tactic(auto, using(crate::proofs::Breaking::judged_reigns))]
pub fn the_list_judges_the_reigns()
    ensures texts { (form : TextForm) → SpansAreReigns (gauge_of form) }
    ensures names { SpansAreReigns name_gauge }
    ensures empty { WhatPassesAddsNothing }
{}
