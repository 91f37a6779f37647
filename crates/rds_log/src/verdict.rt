//! The lines of the answers of an audit.
ghost use Rattle.std.specs.Prelude.{◌≡◌, ◌≤◌, ◌+◌, ◌++◌, length};
ghost use Rattle.rds_log.specs.FaultList as specs;
ghost use Rattle.rds_log.specs.FaultList.{no_line, yes_line};
ghost use Rattle.rds_log.specs.declared.verdict.TheConstants.{ANSWER_ROOM};

use rds_audit::AuditFault;
use rds_io::Lines;

/// The most bytes of the line of an answer.
pub(crate) const ANSWER_ROOM: usize = 36;

/// Appends the line of a yes, for a log with so many slots.
pub(crate) fn push_yes<const N: usize>(slots: u64, lines: &mut Lines<N>)
    requires { length lines.old + ANSWER_ROOM ≤ N }
    ensures { lines.new ≡ lines.old ++ yes_line slots }
{
    lines.push(b"yes ");
    lines.push_number(slots);
    lines.push(b"\n");
}

/// Appends the line of a no: a fault of this slot.
pub(crate) fn push_no<const N: usize>(slot: u64, fault: AuditFault, lines: &mut Lines<N>)
    requires { length lines.old + ANSWER_ROOM ≤ N }
    ensures line { lines.new ≡ lines.old ++ no_line slot fault }
    ensures room { length lines.new ≤ length lines.old + ANSWER_ROOM }
{
    lines.push(b"no ");
    lines.push_number(slot);
    lines.push(b" ");
    lines.push(fault_name(fault));
    lines.push(b"\n");
}

/// Returns the name of a fault, as in the answer of an audit.
pub fn fault_name(fault: AuditFault) -> &'static [u8]
    ensures name { result.now ≡ specs.fault_name fault }
    ensures short { length result.now ≤ 10 }
{
    match fault {
        AuditFault::Changed => b"Changed",
        AuditFault::NotOneText => b"NotOneText",
        AuditFault::EarlyFlag => b"EarlyFlag",
        AuditFault::EarlyTag => b"EarlyTag",
        AuditFault::TagOutside => b"TagOutside",
    }
}
