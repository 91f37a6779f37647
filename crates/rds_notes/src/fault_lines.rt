//! The words about the faults of a log.

use crate::note::FaultOf;
use crate::note_lines::{Line, push, push_count};
use rds_audit::AuditFault;
use rds_cli::{Request, Task};
use rds_fields::TagGroup;
use rds_log::{FaultCount, FaultPlace, NoNote, SegmentCause, fault_name};
use std::io::Write;

/// A longer name of a file is not repeated in a command.
const LONGEST: usize = 256;

/// What to try if only the bytes behind a carriage return are wrong.
const PADDED: &str = "To judge the text without it: --padded";

/// Appends what to try after so many faults.
pub(crate) fn push_found_advice(count: FaultCount, line: &mut Line) {
    if count.harmless > 0 && is_cured_by_padding(count.fault) {
        let _ = write!(line, "{PADDED}");
    }
}

/// Returns whether a fault that may be harmless is none with `--padded`.
fn is_cured_by_padding(fault: AuditFault) -> bool {
    match fault {
        AuditFault::NotOneText => true,
        AuditFault::Changed
        | AuditFault::EarlyFlag
        | AuditFault::EarlyTag
        | AuditFault::TagOutside => false,
    }
}

/// Appends how often a fault came, of so many texts or names, and where it came first and last.
pub(crate) fn push_found(of: FaultOf, judged: u64, count: FaultCount, line: &mut Line) {
    match of {
        FaultOf::Before => {
            let _ = write!(line, "tags before the first text");
        }
        FaultOf::Text => {
            let _ = write!(line, "{} of ", count.count);
            push_count(judged, "text", "texts", line);
        }
        FaultOf::Name => {
            let _ = write!(line, "{} of ", count.count);
            push_count(judged, "name", "names", line);
        }
    }
    let _ = write!(line, ": ");
    push(fault_name(count.fault), line);
    if count.count == 1 {
        let _ = write!(line, " in ");
        push_place(count.first, line);
    } else {
        let _ = write!(line, ", first in ");
        push_place(count.first, line);
        let _ = write!(line, ", last in ");
        push_place(count.last, line);
    }
    if count.harmless > 0 {
        let _ = write!(line, "; in {} of them ", count.harmless);
        push_harmless(count.fault, line);
    }
}

/// Appends that a fault may be harmless, and why.
fn push_harmless(fault: AuditFault, line: &mut Line) {
    if is_cured_by_padding(fault) {
        let _ = write!(line, "it may be harmless: ");
    }
    push_reason(fault, line);
}

/// Appends why a fault may be harmless.
pub(crate) fn push_reason(fault: AuditFault, line: &mut Line) {
    let _ = match fault {
        AuditFault::NotOneText => {
            write!(line, "receivers show nothing behind the carriage return")
        }
        AuditFault::EarlyTag => write!(line, "both tags are empty, so no receiver shows them"),
        AuditFault::Changed | AuditFault::EarlyFlag => write!(
            line,
            "no receiver shows a mix of texts: those with this flag agree, or differ in one segment"
        ),
        AuditFault::TagOutside => Ok(()),
    };
}

/// Appends the slot of a fault, its line, and the time in this line, if it has one.
fn push_place(place: FaultPlace, line: &mut Line) {
    let (slot, number) = (place.slot, place.line);
    let _ = write!(line, "slot {slot} (line {number}");
    let bytes = place.time.bytes();
    if !bytes.is_empty() {
        let _ = write!(line, ", ");
        push(bytes.strip_prefix(b"@").unwrap_or(bytes), line);
    }
    let _ = write!(line, ")");
}

/// Appends which rule the log breaks first.
pub(crate) fn push_no(no: NoNote, line: &mut Line) {
    push_place(no.at, line);
    let _ = write!(line, ": ");
    push_rule(no, line);
    if no.is_harmless {
        let _ = write!(line, ". Here ");
        push_harmless(no.fault, line);
    }
}

/// Appends what to try after a no.
pub(crate) fn push_no_advice(no: NoNote, request: &Request<'_>, line: &mut Line) {
    if no.is_harmless && is_cured_by_padding(no.fault) {
        let _ = write!(line, "{PADDED}. ");
    }
    let _ = write!(line, "To list all faults: rdsrt audit --all");
    push_audit_options(request.task, line);
    push_input(request, line);
    let _ = match no.fault {
        // a receiver that loses nothing shows a mix too
        AuditFault::Changed => write!(line, ". To see what receivers show: rdsrt decode"),
        AuditFault::EarlyFlag
        | AuditFault::NotOneText
        | AuditFault::EarlyTag
        | AuditFault::TagOutside => {
            write!(
                line,
                ". To look for lost slots that make a mix: rdsrt witness"
            )
        }
    };
    push_input(request, line);
    push_running(no, request.task, line);
}

/// Appends the options of this audit that are not the default: the lateness and the start of the log.
fn push_audit_options(task: Task, line: &mut Line) {
    let Task::Audit {
        late,
        running,
        padded,
        ..
    } = task
    else {
        return;
    };
    if late.get() > 0 {
        let _ = write!(line, " --k {}", late.get());
    }
    if running {
        let _ = write!(line, " --running");
    }
    if padded {
        let _ = write!(line, " --padded");
    }
}

/// Appends the programme, the dwell, the group type of the tags and the file of a proposed command.
fn push_input(request: &Request<'_>, line: &mut Line) {
    let _ = write!(line, " --pi {} --m {}", request.pi, request.dwell.get());
    if request.rtplus != TagGroup::usual() {
        let _ = write!(line, " --rtplus {}A", request.rtplus.number());
    }
    let Some(file) = request.file else {
        return;
    };
    let name = file.as_bytes();
    if name.len() >= LONGEST || !name.iter().all(is_plain) {
        return push(b" FILE", line);
    }
    // a name with a hyphen in front would be an option
    push(if name.starts_with(b"-") { b" ./" } else { b" " }, line);
    push(name, line);
}

/// Returns whether a shell takes this byte of a file's name as it is.
fn is_plain(byte: &u8) -> bool {
    byte.is_ascii_alphanumeric() || b"-./_+,:=@%".contains(byte)
}

/// Appends the option for a recording if the fault goes with it: tags that came before any text, or soon after slot 0
/// as the start of their text.
fn push_running(no: NoNote, task: Task, line: &mut Line) {
    let may_be_old = match no.fault {
        AuditFault::EarlyTag => no.earlier.unwrap_or(0) == 0,
        AuditFault::EarlyFlag
        | AuditFault::Changed
        | AuditFault::NotOneText
        | AuditFault::TagOutside => false,
    };
    let takes_it = match task {
        Task::Audit { running, .. } => !running,
        Task::Decode { .. }
        | Task::Encode(..)
        | Task::Simulate { .. }
        | Task::Witness
        | Task::Lose { .. }
        | Task::Slots(..) => false,
    };
    if takes_it && may_be_old {
        let _ = write!(
            line,
            ". If the station was on air before the log began: --running"
        );
    }
}

/// Appends the broken rule, in a sentence.
pub(crate) fn push_rule(no: NoNote, line: &mut Line) {
    let thing = if no.of_name { "name (PTYN)" } else { "text" };
    let spacing = no.spacing;
    let _ = match no.fault {
        AuditFault::Changed => write!(
            line,
            "a {thing} changed without a flip of the A/B flag: if it changes in two segments, receivers show a mix"
        ),
        AuditFault::NotOneText => write!(line, "the segments fit no {thing}"),
        AuditFault::EarlyFlag => write!(
            line,
            "a {thing} reused the A/B flag less than M + K = {spacing} slots after the last group of the {thing} \
             before the previous one"
        ),
        AuditFault::EarlyTag if no.earlier.is_none() => write!(
            line,
            "RT+ tags came before any text"
        ),
        AuditFault::EarlyTag => write!(
            line,
            "RT+ tags came less than M + K = {spacing} slots after their text started"
        ),
        AuditFault::TagOutside => write!(line, "an RT+ tag ends past the end of its text"),
    };
    push_cause(no.cause, line);
    if let Some(slot) = no.earlier {
        let _ = write!(line, ", in slot {slot}");
        push_first(slot, no, line);
    }
}

/// Appends where the first group of the text is, if the text can have started before it, and the pause before it.
fn push_first(start: u64, no: NoNote, line: &mut Line) {
    if let Some(first) = no.first
        && first != start
    {
        let _ = write!(line, " at the earliest; its first group is in slot {first}");
    }
    let Some(pause) = no.paused else {
        return;
    };
    let until = pause.until.saturating_sub(1);
    let _ = match pause.from {
        Some(from) => write!(
            line,
            "; no segment from slot {from} to {until}, so the text began anew"
        ),
        None => write!(
            line,
            "; no segment for M + K slots or more up to slot {until}, so the text began anew"
        ),
    };
}

/// Appends what is wrong with a segment. Places count from 0.
fn push_cause(cause: Option<SegmentCause>, line: &mut Line) {
    let Some(cause) = cause else {
        return;
    };
    let _ = match cause {
        SegmentCause::Byte(byte, place) => write!(line, ": byte 0x{byte:02X} at place {place}"),
        SegmentCause::AfterReturn(byte, place) => write!(
            line,
            ": byte 0x{byte:02X} at place {place}, after the carriage return"
        ),
        SegmentCause::PastReturn(place) => write!(
            line,
            ": a segment past the carriage return at place {place}"
        ),
        SegmentCause::EarlyReturn(place) => write!(
            line,
            ": a carriage return at place {place}, before a segment that was sent"
        ),
        SegmentCause::NoReturn => write!(line, ": they leave no place for the carriage return"),
    };
}
