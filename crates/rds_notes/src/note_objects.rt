//! The objects of notes: one JSON object a note, with its kind, its facts and its sentence. Slots count from 0, lines
//! and rows from 1.

use crate::fault_lines::{push_reason, push_rule};
use crate::note::{FaultOf, Note};
use crate::note_lines::{BEGUN, Line, first_line, group_name, push};
use arrayvec::ArrayVec;
use rds_arrivals::Break;
use rds_audit::AuditFault;
use rds_encoder::Refusal;
use rds_io::LogFault;
use rds_log::{FaultCount, FaultPlace, NoNote, SegmentCause, fault_name};
use rds_script::{ArgumentCause, BadRow, EarlySet, RowCause, SetKind};
use std::io::Write;

/// Appends the object of a note with this sentence and this advice. Without an advice it is empty.
pub(crate) fn push_object(note: Note<'_>, sentence: &[u8], advice: &[u8], line: &mut Line) {
    match note {
        Note::Empty => push_kind("empty", line),
        Note::SetTooEarly(wait) => push_wait(wait, line),
        Note::MayLack => push_kind("may_lack", line),
        Note::BrokenRule(no, _) => push_no(no, line),
        Note::Found(of, judged, count) => push_found(of, judged, count, line),
        Note::Lacking(lack) => {
            push_kind("lack", line);
            push_number("slots", lack.slots, line);
            push_number("lines", lack.lines, line);
            push_flag("start", lack.is_of_start, line);
        }
        Note::WholeSeconds(hidden) => {
            push_kind("whole_seconds", line);
            push_number("lacks", hidden.lacks, line);
            push_number("hides", hidden.hides, line);
        }
        Note::Untimed(groups) => push_one("untimed", "groups", groups, line),
        Note::OthersLeftOut(counts, _) => {
            push_one("others", "lines", counts.others, line);
            push_first(counts.first_other, line);
            push_number("of_first", counts.of_first_other, line);
        }
        Note::Coarse(coarse) => {
            push_kind("coarse", line);
            push_number("slots", coarse.slots, line);
            push_number("room", coarse.room, line);
            if let Some(gap) = coarse.gap {
                push_number("gap", u64::from(gap.lost), line);
                push_number("gap_line", gap.line, line);
            }
            push_known("misfit", coarse.misfit, line);
            push_known("hides", coarse.hides, line);
        }
        Note::Breaks(breaks) => {
            push_one("breaks", "count", breaks.count, line);
            push_number("line", first_line(breaks), line);
        }
        Note::Break(at) => {
            push_kind("break", line);
            push_text("why", break_name(at.why), line);
            push_number("line", at.line, line);
        }
        Note::NoGroup(other) => {
            push_kind("no_group", line);
            push_number("slots", other.slots, line);
            push_first(other.first, line);
            push_number("groups", other.of_first, line);
            push_number("others", other.others, line);
        }
        Note::NothingToRead(short, _) => push_one("nothing", "short", short, line),
        Note::Incomplete(incomplete) => {
            push_kind("incomplete", line);
            push_number("texts", incomplete.texts, line);
            push_number("complete", incomplete.complete, line);
            push_known("endless", incomplete.endless, line);
        }
        Note::Paused(paused, slots, _) => {
            push_kind("paused", line);
            push_number("paused", paused, line);
            push_number("slots", slots, line);
        }
        Note::Judged(judged) => {
            push_kind("judged", line);
            push_number("slots", judged.slots, line);
            push_number("empty", judged.empty, line);
            push_number("texts", judged.texts, line);
            push_number("names", judged.names, line);
            push_number("tags", judged.tags, line);
            push_number("short", judged.short, line);
        }
        Note::Few(groups, slots, _) => {
            push_kind("few", line);
            push_number("groups", groups, line);
            push_number("slots", slots, line);
        }
        Note::ShortTexts(short) => push_one("short", "groups", short, line),
        Note::TagsElsewhere(elsewhere) => {
            push_kind("tags_elsewhere", line);
            push_text("group", group_name(elsewhere.code).as_slice(), line);
            push_number("groups", elsewhere.groups, line);
        }
        Note::OtherApplication(other) => {
            let aid = other.aid;
            push_kind("other_application", line);
            push_text("group", group_name(other.read).as_slice(), line);
            let _ = write!(line, ",\"application\":\"{aid:04X}\"");
        }
        Note::Damaged(damaged, whole, _) => {
            push_kind("damaged", line);
            push_number("damaged", damaged, line);
            push_number("whole", whole, line);
        }
        Note::BadPi(_) => push_fault("pi", line),
        Note::BadWindow => push_fault("confirm", line),
        Note::BadSpans(_) => push_fault("lose", line),
        Note::Fault(fault, run) => push_log_fault(fault, run.script.bad, line),
    }
    push_text(
        "text",
        sentence.strip_prefix(BEGUN).unwrap_or(sentence),
        line,
    );
    if !advice.is_empty() {
        push_text("advice", advice, line);
    }
    push(b"}", line);
}

/// Appends the PI of the first group, if there is one.
fn push_first(first: Option<u16>, line: &mut Line) {
    if let Some(first) = first {
        let _ = write!(line, ",\"first\":\"{first:04X}\"");
    }
}

/// Appends the facts of something that was set too early.
fn push_wait(wait: EarlySet, line: &mut Line) {
    push_kind("refused", line);
    push_number("slot", wait.slot, line);
    let set: &[u8] = match wait.thing {
        SetKind::Text => b"text",
        SetKind::Name => b"name",
        SetKind::Tags => b"tags",
    };
    push_text("set", set, line);
    match wait.refusal {
        Refusal::Silent(slots) => push_slots_more(b"silent", slots, line),
        Refusal::Held(slots) => push_slots_more(b"held", slots, line),
        Refusal::NoText | Refusal::OutOfText(_) => {}
    }
}

/// Appends why it was refused, and for how many slots more.
fn push_slots_more(why: &[u8], slots: u32, line: &mut Line) {
    push_text("why", why, line);
    push_number("slots", u64::from(slots), line);
}

/// Appends the facts of the rule that a log breaks first.
fn push_no(no: NoNote, line: &mut Line) {
    push_kind("no", line);
    push_text("fault", fault_name(no.fault), line);
    let of: &[u8] = match no.fault {
        AuditFault::EarlyTag | AuditFault::TagOutside => b"tags",
        AuditFault::Changed | AuditFault::NotOneText | AuditFault::EarlyFlag => {
            if no.of_name { b"name" } else { b"text" }
        }
    };
    push_text("of", of, line);
    push_place("", no.at, line);
    push_known("earlier", no.earlier, line);
    push_known("first", no.first, line);
    if let Some(pause) = no.paused {
        push_known("pause_from", pause.from, line);
        push_number("pause_until", pause.until, line);
    }
    push_number("needed", u64::from(no.spacing), line);
    push_cause(no.cause, line);
    push_flag("harmless", no.is_harmless, line);
    push_rule_alone(no, line);
    if no.is_harmless {
        push_because(no.fault, line);
    }
}

/// Appends what is wrong with a segment.
fn push_cause(cause: Option<SegmentCause>, line: &mut Line) {
    match cause {
        None => {}
        Some(SegmentCause::Byte(byte, place)) => push_byte(b"byte", byte, place, line),
        Some(SegmentCause::AfterReturn(byte, place)) => push_byte(
            b"after return",
            byte,
            place,
            line,
        ),
        Some(SegmentCause::PastReturn(place)) => {
            push_text("cause", b"past return", line);
            push_number("place", u64::from(place), line);
        }
        Some(SegmentCause::EarlyReturn(place)) => {
            push_text("cause", b"early return", line);
            push_number("place", u64::from(place), line);
        }
        Some(SegmentCause::NoReturn) => push_text("cause", b"no return", line),
    }
}

/// Appends a byte that is wrong, and its place.
fn push_byte(cause: &[u8], byte: u8, place: u8, line: &mut Line) {
    push_text("cause", cause, line);
    push_number("byte", u64::from(byte), line);
    push_number("place", u64::from(place), line);
}

/// Appends how often a fault came.
fn push_found(of: FaultOf, judged: u64, count: FaultCount, line: &mut Line) {
    push_kind("faults", line);
    push_text("fault", fault_name(count.fault), line);
    let of: &[u8] = match of {
        FaultOf::Before => b"before",
        FaultOf::Text => b"text",
        FaultOf::Name => b"name",
    };
    push_text("of", of, line);
    push_number("count", count.count, line);
    push_number("harmless", count.harmless, line);
    push_number("judged", judged, line);
    push_place("first_", count.first, line);
    push_place("last_", count.last, line);
    if count.harmless > 0 {
        push_because(count.fault, line);
    }
}

/// Appends a slot, its line and the time in this line, by names with this beginning.
fn push_place(begin: &str, place: FaultPlace, line: &mut Line) {
    let (slot, number) = (place.slot, place.line);
    let _ = write!(line, ",\"{begin}slot\":{slot},\"{begin}line\":{number}");
    let bytes = place.time.bytes();
    if !bytes.is_empty() {
        let _ = write!(line, ",\"{begin}time\":");
        push_string(bytes.strip_prefix(b"@").unwrap_or(bytes), line);
    }
}

/// Appends the facts of a fault of the log or script, of the input or of the output. This is the malformed row.
fn push_log_fault(fault: LogFault, bad: Option<BadRow>, line: &mut Line) {
    match fault {
        LogFault::BadLine(number) => {
            push_fault("line", line);
            push_number("line", number, line);
        }
        LogFault::BadRow(number) => {
            push_fault("row", line);
            push_number("row", number, line);
            push_character(bad, line);
        }
        LogFault::Read => push_fault("read", line),
        LogFault::Write => push_fault("write", line),
        LogFault::TooLong => push_fault("too long", line),
        LogFault::Memory => push_fault("memory", line),
    }
}

/// Appends the character that the table lacks, and its place.
fn push_character(bad: Option<BadRow>, line: &mut Line) {
    if let Some(bad) = bad
        && let RowCause::Argument(ArgumentCause::NoSuchCharacter(character, place)) = bad.cause
    {
        let mut bytes = ArrayVec::<u8, 4>::new();
        let _ = write!(bytes, "{character}");
        push_text("character", bytes.as_slice(), line);
        push_number("place", place as u64, line);
    }
}

/// Begins the object of a fault with this name.
fn push_fault(name: &str, line: &mut Line) {
    push_kind("fault", line);
    push_text("fault", name.as_bytes(), line);
}

/// Begins the object of a note of this kind with one number.
fn push_one(kind: &str, name: &str, number: u64, line: &mut Line) {
    push_kind(kind, line);
    push_number(name, number, line);
}

/// Begins the object of a note of this kind.
fn push_kind(kind: &str, line: &mut Line) {
    let _ = write!(line, "{{\"kind\":\"{kind}\"");
}

/// Appends a number.
fn push_number(name: &str, number: u64, line: &mut Line) {
    let _ = write!(line, ",\"{name}\":{number}");
}

/// Appends a number, if it is known.
fn push_known(name: &str, number: Option<u64>, line: &mut Line) {
    if let Some(number) = number {
        push_number(name, number, line);
    }
}

/// Appends whether something is so.
fn push_flag(name: &str, is_so: bool, line: &mut Line) {
    let _ = write!(line, ",\"{name}\":{is_so}");
}

/// Appends a text.
fn push_text(name: &str, text: &[u8], line: &mut Line) {
    let _ = write!(line, ",\"{name}\":");
    push_string(text, line);
}

/// Appends the sentence of the rule that a log breaks first.
fn push_rule_alone(no: NoNote, line: &mut Line) {
    let mut words = Line::new();
    push_rule(no, &mut words);
    push_text("rule", words.as_slice(), line);
}

/// Appends why a fault may be harmless.
fn push_because(fault: AuditFault, line: &mut Line) {
    let mut words = Line::new();
    push_reason(fault, &mut words);
    push_text("because", words.as_slice(), line);
}

/// Appends the name of a break.
fn break_name(why: Break) -> &'static [u8] {
    match why {
        Break::Back => b"back",
        Break::Hour => b"hour",
    }
}

/// Appends a JSON string.
fn push_string(text: &[u8], line: &mut Line) {
    push(b"\"", line);
    for &byte in text {
        let _ = match byte {
            b'"' | b'\\' => write!(line, "\\{}", char::from(byte)),
            0..=31 => write!(line, "\\u{byte:04x}"),
            _ => line.write(&[byte]).map(|_| ()),
        };
    }
    push(b"\"", line);
}
