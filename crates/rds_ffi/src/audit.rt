//! An audit in the caller's memory.
ghost use Rattle.std.specs.Prelude.{◌≡◌, ◌≢◌, ◌+◌, ◌-◌, ◌<◌, ◌≤◌, ◌^◌, ◌↔◌, ℕ, [], ◌∷◌, List, None, Option, Some};
ghost use Rattle.std.specs.Prelude.{length, min, IfSome, IsSome};
ghost use Rattle.rds_block.specs.declared.group.Group.{Group};
ghost use Rattle.rds_receiver.specs.Receipts.{heard_of};
ghost use Rattle.rds_audit.specs.AuditAt.{Adds, AuditAt, FollowsLog, WhereAuditFollows, WhereAuditIs, WhereItFollows};
ghost use Rattle.rds_audit.specs.AuditAt.{WhereTheAuditStands};
ghost use Rattle.rds_audit.specs.AuditLaws.{IsSafeLog, IsSafeRecording};
ghost use Rattle.rds_audit.specs.Dense.{HasPlans};
ghost use Rattle.rds_audit.specs.FlagLaws.{NamesAreSafeByFlag, TextsAreSafeByFlag};
ghost use Rattle.rds_audit.specs.Lengths.{gauge_of, name_gauge};
ghost use Rattle.rds_audit.specs.Listing.{spans};
ghost use Rattle.rds_audit.specs.Reigns.{AlternateFlags, reigns};
ghost use Rattle.rds_audit.specs.Rules.{LogPasses};
ghost use Rattle.rds_audit.specs.Stored.{AreBits, fault_of, faults_stored, form_of, start_of};
ghost use Rattle.rds_audit.specs.declared.audit.AuditFault.{AuditFault};
ghost use Rattle.rds_audit.specs.declared.log_start.LogStart.TheVariants as LogStart;
ghost use Rattle.rds_audit.specs.declared.text_form.TextForm.TheVariants as TextForm;
ghost use Rattle.rds_ffi.specs.Codes.{IsFaultCode, RDSRT_BAD_ARGUMENT, RDSRT_OK, Tells, all_flags, code_of, fault_in};
ghost use Rattle.rds_ffi.specs.Codes.{form_by, start_by};
ghost use Rattle.rds_ffi.specs.Slots.{Bring, IsCount};
ghost use Rattle.rds_safety.specs.Marks.{marks, name_mark, text_mark};

use crate::codes;
use crate::slots::{slot_of, spacing_of};
use rds_audit::{Audit, AuditFault, LogStart, StoredFaults, TextForm};

/// Makes an audit of this programme before the first slot. The dwell and the lateness are in slots.
///
/// # Errors
///
/// `RDSRT_BAD_ARGUMENT` and no change if the dwell is 0 or the lateness over 1024.
#[unsafe(no_mangle)]
pub extern "C" fn rdsrt_audit_init(audit: &mut Audit, pi: u16, dwell: u16, late: u16) -> u32
    ensures code { result ≡ RDSRT_OK ↔ ((0 < dwell) × (late ≤ 1024)) }
    ensures stands { result ≡ RDSRT_OK → AuditAt pi (dwell + late) audit.new [] }
    ensures follows { result ≡ RDSRT_OK → FollowsLog pi (dwell + late) audit.new [] }
    ensures start { result ≡ RDSRT_OK → start_of audit.new ≡ LogStart.Complete }
    ensures form { result ≡ RDSRT_OK → form_of audit.new ≡ TextForm.Plain }
    ensures bad { result ≢ RDSRT_OK → result ≡ RDSRT_BAD_ARGUMENT }
    ensures kept { result ≢ RDSRT_OK → audit.new ≡ audit.old }
{
    begun(audit, pi, dwell, late, LogStart::Complete, TextForm::Plain)
}

/// Does what [`rdsrt_audit_init`] does for a log whose station was on air before the log began.
///
/// # Errors
///
/// As [`rdsrt_audit_init`].
#[unsafe(no_mangle)]
pub extern "C" fn rdsrt_audit_init_running(audit: &mut Audit, pi: u16, dwell: u16, late: u16) -> u32
    ensures code { result ≡ RDSRT_OK ↔ ((0 < dwell) × (late ≤ 1024)) }
    ensures stands { result ≡ RDSRT_OK → AuditAt pi (dwell + late) audit.new [] }
    ensures follows { result ≡ RDSRT_OK → FollowsLog pi (dwell + late) audit.new [] }
    ensures start { result ≡ RDSRT_OK → start_of audit.new ≡ LogStart.Running }
    ensures form { result ≡ RDSRT_OK → form_of audit.new ≡ TextForm.Plain }
    ensures bad { result ≢ RDSRT_OK → result ≡ RDSRT_BAD_ARGUMENT }
    ensures kept { result ≢ RDSRT_OK → audit.new ≡ audit.old }
{
    begun(audit, pi, dwell, late, LogStart::Running, TextForm::Plain)
}

/// Does what [`rdsrt_audit_init`] does for a log as these flags say: `RDSRT_AUDIT_RUNNING` if the station was on air
/// before the log began, `RDSRT_AUDIT_PADDED` if texts may have padding, both or none.
///
/// # Errors
///
/// As [`rdsrt_audit_init`], and for other flags.
#[unsafe(no_mangle)]
pub extern "C" fn rdsrt_audit_init_with(
    audit: &mut Audit,
    pi: u16,
    dwell: u16,
    late: u16,
    flags: u32,
) -> u32
    ensures code { result ≡ RDSRT_OK ↔ ((0 < dwell) × (late ≤ 1024) × (flags ≤ all_flags)) }
    ensures stands { result ≡ RDSRT_OK → AuditAt pi (dwell + late) audit.new [] }
    ensures follows { result ≡ RDSRT_OK → FollowsLog pi (dwell + late) audit.new [] }
    ensures start { result ≡ RDSRT_OK → start_of audit.new ≡ start_by flags }
    ensures form { result ≡ RDSRT_OK → form_of audit.new ≡ form_by flags }
    ensures bad { result ≢ RDSRT_OK → result ≡ RDSRT_BAD_ARGUMENT }
    ensures kept { result ≢ RDSRT_OK → audit.new ≡ audit.old }
{
    let Some((start, form)) = read_flags(flags) else {
        return codes::BAD_ARGUMENT;
    };
    begun(audit, pi, dwell, late, start, form)
}

/// Returns where a log with these flags begins, and the form of its texts. `None` if a bit of them is no flag.
fn read_flags(flags: u32) -> Option<(LogStart, TextForm)>
    ensures range { IsSome result ↔ (flags ≤ all_flags) }
    ensures start { IfSome result (λ both. both.0 ≡ start_by flags) }
    ensures form { IfSome result (λ both. both.1 ≡ form_by flags) }
{
    match flags {
        0 => Some((LogStart::Complete, TextForm::Plain)),
        codes::AUDIT_RUNNING => Some((LogStart::Running, TextForm::Plain)),
        codes::AUDIT_PADDED => Some((LogStart::Complete, TextForm::Padded)),
        codes::ALL_FLAGS => Some((LogStart::Running, TextForm::Padded)),
        _ => None,
    }
}

/// Makes an audit of a log that begins so, and whose texts have this form.
fn begun(audit: &mut Audit, pi: u16, dwell: u16, late: u16, start: LogStart, form: TextForm) -> u32
    ensures code { result ≡ RDSRT_OK ↔ ((0 < dwell) × (late ≤ 1024)) }
    ensures stands { result ≡ RDSRT_OK → AuditAt pi (dwell + late) audit.new [] }
    ensures follows { result ≡ RDSRT_OK → FollowsLog pi (dwell + late) audit.new [] }
    ensures start { result ≡ RDSRT_OK → start_of audit.new ≡ start }
    ensures form { result ≡ RDSRT_OK → form_of audit.new ≡ form }
    ensures bad { result ≢ RDSRT_OK → result ≡ RDSRT_BAD_ARGUMENT }
    ensures kept { result ≢ RDSRT_OK → audit.new ≡ audit.old }
{
    let Some((dwell, late)) = spacing_of(dwell, late) else {
        return codes::BAD_ARGUMENT;
    };
    *audit = Audit::starting(pi, dwell, late, start, form);
    codes::OK
}

/// Takes the next slot: the four blocks of its group, or no blocks. Returns `RDSRT_OK` if the log passes so far, and
/// the code of its fault if not.
///
/// # Errors
///
/// `RDSRT_BAD_ARGUMENT` and no change if the number of blocks is neither four nor zero.
#[unsafe(no_mangle)]
pub extern "C" fn rdsrt_audit_slot(audit: &mut Audit, blocks: &[u16]) -> u32
    ensures code { result ≢ RDSRT_BAD_ARGUMENT ↔ IsCount blocks.now }
    ensures start { result ≢ RDSRT_BAD_ARGUMENT → start_of audit.new ≡ start_of audit.old }
    ensures form { result ≢ RDSRT_BAD_ARGUMENT → form_of audit.new ≡ form_of audit.old }
    ensures stands { result ≢ RDSRT_BAD_ARGUMENT → WhereAuditIs audit.old (λ pi d log.
        (slot : Option Group) × Bring blocks.now slot × AuditAt pi d audit.new (slot ∷ log)) }
    ensures follows { result ≢ RDSRT_BAD_ARGUMENT → fault_of audit.old ≡ None → WhereAuditFollows audit.old
        (λ pi d log. (slot : Option Group) × Bring blocks.now slot × FollowsLog pi d audit.new (slot ∷ log)) }
    ensures which { result ≢ RDSRT_BAD_ARGUMENT → WhereTheAuditStands audit.new (Tells (form_of audit.new) result) }
    ensures again { result ≢ RDSRT_BAD_ARGUMENT → (fault : AuditFault) → fault_of audit.old ≡ Some fault
        → (result ≡ code_of (Some fault)) × (audit.new ≡ audit.old) }
    ensures codes { result ≢ RDSRT_BAD_ARGUMENT → IsFaultCode result }
    ensures kept { result ≡ RDSRT_BAD_ARGUMENT → audit.new ≡ audit.old }
{
    let Ok(slot) = slot_of(blocks) else {
        return codes::BAD_ARGUMENT;
    };
    code_of(audit.slot_blocks(slot))
}

/// Takes the next slot, whatever the faults before it: the four blocks of its group, or no blocks. Writes the faults
/// that the slot adds to the list of all faults of the log, each as 0 or 1.
///
/// # Errors
///
/// `RDSRT_BAD_ARGUMENT` and no change if the number of blocks is neither four nor zero.
#[unsafe(no_mangle)]
pub extern "C" fn rdsrt_audit_all_faults(
    audit: &mut Audit,
    blocks: &[u16],
    faults: &mut StoredFaults,
) -> u32
    ensures code { result ≡ RDSRT_OK ↔ IsCount blocks.now }
    ensures bad { result ≢ RDSRT_OK → result ≡ RDSRT_BAD_ARGUMENT }
    ensures start { result ≡ RDSRT_OK → start_of audit.new ≡ start_of audit.old }
    ensures form { result ≡ RDSRT_OK → form_of audit.new ≡ form_of audit.old }
    ensures stands { result ≡ RDSRT_OK → WhereAuditIs audit.old (λ pi d log.
        (slot : Option Group) × Bring blocks.now slot × AuditAt pi d audit.new (slot ∷ log)) }
    ensures follows { result ≡ RDSRT_OK → WhereAuditFollows audit.old (λ pi d log.
        (slot : Option Group) × Bring blocks.now slot × FollowsLog pi d audit.new (slot ∷ log)) }
    ensures adds { result ≡ RDSRT_OK → (slot : Option Group) × Bring blocks.now slot
        × Adds audit.old slot (faults_stored faults.new) }
    ensures bits { result ≡ RDSRT_OK → AreBits faults.new }
    ensures kept { result ≢ RDSRT_OK → audit.new ≡ audit.old }
    ensures none { result ≢ RDSRT_OK → faults.new ≡ faults.old }
{
    let Ok(slot) = slot_of(blocks) else {
        return codes::BAD_ARGUMENT;
    };
    *faults = StoredFaults::of(audit.all_faults(slot));
    codes::OK
}

/// Returns 1 if the log passes so far, and 0 if not.
#[unsafe(no_mangle)]
pub extern "C" fn rdsrt_audit_passed(audit: &Audit) -> u32
    ensures few { result ≤ 1 }
    ensures passes { WhereTheAuditStands audit.now (λ d heard. result ≡ 1 ↔ LogPasses (form_of audit.now) d heard) }
    ensures plans { WhereTheAuditStands audit.now (λ d heard. result ≡ 1 ↔ HasPlans (form_of audit.now) d heard) }
    ensures safe { WhereTheAuditStands audit.now (λ d heard. (m k : ℕ) → 0 < m → m + k ≡ d
        → result ≡ 1 → IsSafeLog (form_of audit.now) m k heard) }
    ensures recording { (pi m k : ℕ) (log : List (Option Group)) → AuditAt pi (m + k) audit.now log
        → start_of audit.now ≡ LogStart.Running → 0 < m → result ≡ 1
        → IsSafeRecording (form_of audit.now) m k (heard_of pi log) }
{
    u32::from(audit.passed())
}

/// Returns how many texts the log has so far. A text that changed its bytes without the flag counts as two. The number
/// stops at 2^64 - 1.
#[unsafe(no_mangle)]
pub extern "C" fn rdsrt_audit_texts(audit: &Audit) -> u64
    ensures { WhereItFollows audit.now (λ d judged. result
        ≡ min (length (spans (gauge_of (form_of audit.now)) d (marks text_mark judged))) (2 ^ 64 - 1)) }
{
    audit.texts()
}

/// Returns how many names the log has so far, as for texts.
#[unsafe(no_mangle)]
pub extern "C" fn rdsrt_audit_names(audit: &Audit) -> u64
    ensures { WhereItFollows audit.now (λ d judged. result
        ≡ min (length (spans name_gauge d (marks name_mark judged))) (2 ^ 64 - 1)) }
{
    audit.names()
}

/// Returns 1 if the log passes so far and turned the A/B flag with each new text, and 0 if not.
#[unsafe(no_mangle)]
pub extern "C" fn rdsrt_audit_texts_turn_the_flag(audit: &Audit) -> u32
    ensures few { result ≤ 1 }
    ensures turns { WhereTheAuditStands audit.now (λ d heard. result ≡ 1
        ↔ (LogPasses (form_of audit.now) d heard × AlternateFlags (reigns d (marks text_mark heard)))) }
    ensures safe { WhereTheAuditStands audit.now (λ d heard. form_of audit.now ≡ TextForm.Plain → result ≡ 1
        → TextsAreSafeByFlag d heard) }
{
    u32::from(audit.texts_turn_the_flag())
}

/// Returns 1 if the log passes so far and turned the A/B flag with each new name, and 0 if not.
#[unsafe(no_mangle)]
pub extern "C" fn rdsrt_audit_names_turn_the_flag(audit: &Audit) -> u32
    ensures few { result ≤ 1 }
    ensures turns { WhereTheAuditStands audit.now (λ d heard. result ≡ 1
        ↔ (LogPasses (form_of audit.now) d heard × AlternateFlags (reigns d (marks name_mark heard)))) }
    ensures safe { WhereTheAuditStands audit.now (λ d heard. form_of audit.now ≡ TextForm.Plain → result ≡ 1
        → NamesAreSafeByFlag d heard) }
{
    u32::from(audit.names_turn_the_flag())
}

/// Returns the code of a fault, or of none.
fn code_of(found: Result<(), AuditFault>) -> u32
    ensures told { result ≡ code_of (fault_in found) }
    ensures answer { result ≢ RDSRT_BAD_ARGUMENT }
{
    u32::from(AuditFault::code(found.err()))
}
