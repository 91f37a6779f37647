//! The laws of logs.
ghost use Rattle.std.specs.Prelude.{◌≡◌, ◌<◌, ℕ, Bool, List, Ok, Option, Some};
ghost use Rattle.rds_block.specs.declared.group.Group.{Group};
ghost use Rattle.rds_io.specs.Told.{Traffic};
ghost use Rattle.rds_io.specs.Alike.{WriteAlike};
ghost use Rattle.rds_log.specs.Audit.{SlotsAreSafe, SlotsFail, SlotsHaveNoPlans, SlotsPass, spacing};
ghost use Rattle.rds_log.specs.FaultList.{Audits};
ghost use Rattle.rds_log.specs.FilledLog.{FilledTextsAreLogs};
ghost use Rattle.rds_lines.specs.LogLines.{Line};
ghost use Rattle.rds_lines.specs.LineSays.{LineSays};
ghost use Rattle.rds_log.specs.LogWrites.{LogWrites};
ghost use Rattle.rds_log.specs.Decode.{DecodesAll};
ghost use Rattle.rds_log.specs.declared.audit_log.Auditing.{Auditing};
ghost use Rattle.rds_log.specs.declared.decode_log.Decoding.{Decoding};
ghost use Rattle.rds_lines.specs.declared.log_line.LogLine.{LogLine};
ghost use Rattle.rds_audit.specs.declared.audit.AuditFault.{AuditFault};

use rds_audit::{
    passes_by_plans, passes_without_a_fault, what_passes_as_a_recording_is_safe,
    what_passes_is_safe,
};

/// Shows that the output of a log is a function of its bytes: a line has one meaning, the bytes write one output, and
/// two calls of `decode` that end without a fault wrote the same.
pub fn bytes_write_one_output()
    ensures one_said { (line : Line) (said other : LogLine) → LineSays line said
        → LineSays line other → said ≡ other }
    ensures one_output { (how : Decoding) (text written other : List ℕ) → LogWrites how text written
        → LogWrites how text other → written ≡ other }
    ensures alike { (how : Decoding) (text : List ℕ) (r w q v : Traffic) → r.before ≡ Some text
        → q.before ≡ Some text → DecodesAll how r w → DecodesAll how q v → WriteAlike w v }
{}

/// Shows that the answer to a log is a function of its bytes: two calls of `audit` that end without a fault answered
/// and wrote the same.
pub fn bytes_have_one_verdict()
    ensures { (a : Auditing) (reads others : ℕ) (bytes : List ℕ) (r w q v : Traffic) (passed other : Bool)
        → 0 < spacing a → r.before ≡ Some bytes → q.before ≡ Some bytes
        → Audits a reads r w (Ok passed) → Audits a others q v (Ok other)
        → (passed ≡ other) × WriteAlike w v }
{
    passes_without_a_fault();
}

/// Shows the meaning of the answer to a log: slots that pass with M and K are safe for every receiver with dwell M
/// whose groups come at most K slots late, and slots that do not pass have no lawful and dense plans. The slots of a
/// running station are safe as they are, with the tags before their first text segment.
pub fn what_an_answer_means()
    ensures safe { (a : Auditing) (slots : List (Option Group)) → 0 < a.dwell → SlotsPass a slots
        → SlotsAreSafe a slots }
    ensures no_plans { (a : Auditing) (t : ℕ) (fault : AuditFault) (slots : List (Option Group)) → 0 < spacing a
        → SlotsFail a t fault slots → SlotsHaveNoPlans a slots }
{
    passes_without_a_fault();
    passes_by_plans();
    what_passes_is_safe();
    what_passes_as_a_recording_is_safe();
}

/// Shows that the output of `slots` is a log with the lost slots put back.
#[tactic(auto, using(crate::proofs::Filled::are_logs))]
pub fn filled_texts_are_logs()
    ensures { FilledTextsAreLogs }
{}
