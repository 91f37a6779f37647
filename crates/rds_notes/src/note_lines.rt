//! The sentences of notes.

use crate::fault_lines::{push_found, push_found_advice, push_no, push_no_advice};
use crate::note::{
    CoarseTimes, Elsewhere, Hidden, Incomplete, Judged, Note, OtherGroups, OtherInTags, Run,
};
use crate::row_lines::push_row_cause;
use crate::spans::push_spans;
use arrayvec::ArrayVec;
use rds_cli::{Request, Shown, Task};
use rds_encoder::Refusal;
use rds_io::LogFault;
use rds_lines::{BadStart, BreakPlace, Lack, comment_of};
use rds_log::{Breaks, SlotCounts};
use rds_script::{EarlySet, SetKind};
use std::io::Write;

/// The most bytes of a note. All notes are shorter.
const ROOM: usize = 2048;

/// The most bytes of a PI code, and of the name of a file, that a note shows.
const PI_ROOM: usize = 60;

const FILE_ROOM: usize = 256;

/// The beginning of a note.
pub(crate) const BEGUN: &[u8] = b"rdsrt: ";

/// The note on an input without a line.
const EMPTY: &[u8] = b"the input is empty";

/// The note on a no that the recorder may have made.
const MAY_LACK: &[u8] =
    b"this no may come from the recorder: no line has a time that rdsrt reads, and no line is a lost \
    slot. If it left out lost groups, right texts look wrong";

/// The bytes of an unfinished note.
pub(crate) type Line = ArrayVec<u8, ROOM>;

/// Appends the sentence of a note.
pub(crate) fn push_note(note: Note<'_>, line: &mut Line) {
    match note {
        Note::Empty => push(EMPTY, line),
        Note::SetTooEarly(wait) => push_wait(wait, line),
        Note::MayLack => push(MAY_LACK, line),
        Note::BrokenRule(no, _) => push_no(no, line),
        Note::Found(of, judged, count) => push_found(of, judged, count, line),
        Note::Lacking(lack) => push_lack(lack, line),
        Note::WholeSeconds(hidden) => push_hidden(hidden, line),
        Note::Untimed(groups) => push_untimed(groups, line),
        Note::OthersLeftOut(counts, pi) => push_others(counts, pi, line),
        Note::Coarse(coarse) => push_coarse(coarse, line),
        Note::Breaks(breaks) => push_breaks(breaks, line),
        Note::Break(at) => push_break(at, line),
        Note::NoGroup(other) => push_no_group(other, line),
        Note::NothingToRead(short, request) => push_nothing(short, request, line),
        Note::Incomplete(incomplete) => push_incomplete(incomplete, line),
        Note::Paused(paused, slots, request) => push_paused(paused, slots, request, line),
        Note::Judged(judged) => push_judged(judged, line),
        Note::Few(groups, slots, pi) => push_few(groups, slots, pi, line),
        Note::ShortTexts(short) => push_short(short, "", "read", line),
        Note::TagsElsewhere(elsewhere) => push_elsewhere(elsewhere, line),
        Note::OtherApplication(other) => push_other_application(other, line),
        Note::Damaged(damaged, whole, pi) => push_damaged(damaged, whole, pi, line),
        Note::BadPi(pi) => push_pi(pi, line),
        Note::BadWindow => push_window(line),
        Note::BadSpans(request) => push_spans(request, line),
        Note::Fault(fault, run) => push_fault(fault, run, line),
    }
}

/// Appends what to try, if the note has an advice.
pub(crate) fn push_advice(note: Note<'_>, line: &mut Line) {
    match note {
        Note::MayLack => {
            let _ = write!(
                line,
                "Record with times, and put rdsrt slots before this command, or record a line for each lost slot"
            );
        }
        Note::BrokenRule(no, request) => push_no_advice(no, request, line),
        Note::Found(_, _, count) => push_found_advice(count, line),
        Note::Lacking(_) => {
            let _ = write!(line, "Put rdsrt slots before this command");
        }
        Note::Breaks(breaks) => push_breaks_advice(breaks, line),
        Note::Paused(..) => {
            let _ = write!(
                line,
                "Keep the text on their displays (rdsrt decode --keep)"
            );
        }
        Note::TagsElsewhere(elsewhere) if elsewhere.may_be_read => {
            let _ = write!(line, "Give --rtplus ");
            push(group_name(elsewhere.code).as_slice(), line);
        }
        _ => {}
    }
}

/// Appends that the programme has no group of a text, a name or tags.
fn push_nothing(short: u64, request: &Request<'_>, line: &mut Line) {
    let said = nothing_said(request);
    let tags = request.rtplus.number();
    let _ = write!(line, "no 2A, 10A or {tags}A group of {}{said}", request.pi);
    let verb = match request.task {
        Task::Audit { .. } => "judged",
        _ => "read",
    };
    push_short(short, "; ", verb, line);
}

/// Appends, after these words, that groups 2B were not read or judged, if there were some.
fn push_short(short: u64, join: &str, verb: &str, line: &mut Line) {
    if short == 0 {
        return;
    }
    let _ = write!(line, "{join}");
    push_count(short, "group 2B was", "groups 2B were", line);
    let _ = write!(line, " not {verb}");
}

/// Appends that texts came which were not complete, and what they lack.
fn push_incomplete(incomplete: Incomplete, line: &mut Line) {
    let texts = incomplete.texts;
    let Some(endless) = incomplete.endless else {
        let left = texts.saturating_sub(incomplete.complete);
        let _ = write!(line, "receivers of rdsrt do not show {left} of ");
        push_count(texts, "text", "texts", line);
        let _ = write!(
            line,
            ": a text is shown when all its segments up to a carriage return came, or all 16"
        );
        return;
    };
    let _ = write!(line, "segments of ");
    push_count(texts, "text", "texts", line);
    let _ = write!(line, " came, and no text was complete: ");
    if endless > 0 {
        let _ = write!(
            line,
            "{endless} had no carriage return and not all 16 segments"
        );
    }
    if 0 < endless && endless < texts {
        let _ = write!(line, ", ");
    }
    if endless < texts {
        let lacking = texts.saturating_sub(endless);
        let _ = write!(
            line,
            "{lacking} lacked a segment before the carriage return"
        );
    }
}

/// Appends in how many slots receivers show no text, since its segments pause.
fn push_paused(paused: u64, slots: u64, request: &Request<'_>, line: &mut Line) {
    let _ = write!(line, "in {paused} of ");
    push_count(slots, "slot", "slots", line);
    let m = request.dwell.get();
    let _ = write!(
        line,
        " no text segment had come for M = {m} slots: receivers with this M show no text then"
    );
}

/// Appends what an audit judged.
fn push_judged(judged: Judged, line: &mut Line) {
    let _ = write!(line, "judged in ");
    push_count(judged.slots, "slot", "slots", line);
    let empty = judged.empty;
    if empty > 0 {
        let _ = write!(line, ", {empty} without a group");
    }
    let _ = write!(line, ": ");
    push_count(judged.texts, "text", "texts", line);
    let _ = write!(line, ", ");
    push_count(judged.names, "name", "names", line);
    let _ = write!(line, ", ");
    push_count(judged.tags, "pair of tags", "pairs of tags", line);
    push_short(judged.short, "; ", "judged", line);
}

/// Appends that a log with times has a group of the programme in few of its slots.
fn push_few(groups: u64, slots: u64, pi: &str, line: &mut Line) {
    let _ = write!(line, "{groups} of ");
    push_count(slots, "slot has", "slots have", line);
    let _ = write!(
        line,
        " a group of {pi}, less than nine tenths: nothing is known of what was sent in the others"
    );
}

/// Appends that the tags of the programme are in other groups than those that were read.
fn push_elsewhere(elsewhere: Elsewhere, line: &mut Line) {
    let name = group_name(elsewhere.code);
    let _ = write!(line, "RT+ is in group ");
    push(name.as_slice(), line);
    let _ = write!(line, " by the 3A groups, not in ");
    push(group_name(elsewhere.read).as_slice(), line);
    let _ = write!(line, ": ");
    push_count(elsewhere.groups, "group ", "groups ", line);
    push(name.as_slice(), line);
    let be = if elsewhere.groups == 1 { "was" } else { "were" };
    let verb = if elsewhere.judges { "judged" } else { "read" };
    let _ = write!(line, " {be} not {verb}");
}

/// Appends that the groups of the tags carry another application, and what the command took them for.
fn push_other_application(other: OtherInTags, line: &mut Line) {
    let aid = other.aid;
    let taken = if other.judges {
        "these groups were read as tags"
    } else {
        "after such a 3A group receivers ignore them"
    };
    let _ = write!(line, "group ");
    push(group_name(other.read).as_slice(), line);
    let _ = write!(
        line,
        " carries the application {aid:04X} by the 3A groups, not RT+: {taken}"
    );
}

/// Appends how many groups of the programme were lost for one block.
fn push_damaged(damaged: u64, whole: u64, pi: &str, line: &mut Line) {
    let all = damaged.saturating_add(whole);
    let _ = write!(line, "{damaged} of ");
    push_count(all, "group", "groups", line);
    let _ = write!(
        line,
        " of {pi} had one lost block: rdsrt uses whole groups only"
    );
}

/// Returns the name of a group type, given as five bits: its number, and A or B.
pub(crate) fn group_name(code: u8) -> ArrayVec<u8, 4> {
    let mut name = ArrayVec::new();
    let version = if code & 1 == 0 { 'A' } else { 'B' };
    let _ = write!(name, "{}{version}", code >> 1);
    name
}

/// Appends a number of things.
pub(crate) fn push_count(count: u64, one: &str, more: &str, line: &mut Line) {
    let thing = if count == 1 { one } else { more };
    let _ = write!(line, "{count} {thing}");
}

/// Returns the end of a note on a log with nothing to read: what the answer is worth.
fn nothing_said(request: &Request<'_>) -> &'static str {
    match request.task {
        Task::Audit { .. } => ": the yes says nothing",
        Task::Witness => ": the search says nothing",
        Task::Lose { .. } => ": the answer says nothing",
        _ => "",
    }
}

/// Appends that something was set too early, and in which slot it can be accepted.
fn push_wait(wait: EarlySet, line: &mut Line) {
    let thing = match wait.thing {
        SetKind::Text => "text",
        SetKind::Name => "name",
        SetKind::Tags => "tags",
    };
    let (why, slots) = match wait.refusal {
        Refusal::Silent(slots) => ("the station is silent after a restart", slots),
        Refusal::Held(slots) => ("the one before is still held", slots),
        Refusal::NoText | Refusal::OutOfText(_) => return,
    };
    let slot = wait.slot;
    let end = slot.saturating_add(u64::from(slots));
    let _ = write!(line, "slot {slot}: {thing} refused, {why} for ");
    push_count(u64::from(slots), "slot more", "slots more", line);
    let _ = match (wait.thing, wait.refusal) {
        // a slot of its own has the text that the tags need
        (SetKind::Tags, Refusal::Silent(_)) => {
            let from = end.saturating_add(1);
            write!(
                line,
                ": set a text first, then tags in slot {from} at the earliest"
            )
        }
        _ => write!(line, ": set it in slot {end} at the earliest"),
    };
    let _ = write!(line, ", if the encoder does not restart");
}

/// Appends that the log has no group of the wanted programme, and which programmes it has.
fn push_no_group(other: OtherGroups<'_>, line: &mut Line) {
    let request = other.request;
    if other.is_empty {
        push(EMPTY, line);
    } else {
        let _ = write!(line, "no group of {} in ", request.pi);
        push_count(other.slots, "slot", "slots", line);
        push_programmes(other.first, other.of_first, other.others, line);
    }
    let _ = write!(line, "{}", nothing_said(request));
}

/// Appends the programme of the first group, the number of its groups, and that of the groups of other programmes.
fn push_programmes(first: Option<u16>, count: u64, others: u64, line: &mut Line) {
    let Some(first) = first else {
        return;
    };
    let _ = write!(line, " ({first:04X}: {count}");
    if others > 0 {
        let _ = write!(line, ", others: {others}");
    }
    let _ = write!(line, ")");
}

/// Appends that a log, or its start, spans more slots by its times than it has lines.
pub(crate) fn push_lack(lack: Lack, line: &mut Line) {
    let (slots, lines) = (lack.slots, lack.lines);
    if lack.is_of_start {
        let _ = write!(line, "the first ");
        push_count(lines, "line spans", "lines span", line);
        let _ = write!(line, " {slots} slots by the times in them");
    } else {
        let _ = write!(line, "the log spans {slots} slots by its times and has ");
        push_count(lines, "line", "lines", line);
    }
}

/// Appends that nobody knows how many slots were lost at a break of a log, and why.
fn push_break(at: BreakPlace, line: &mut Line) {
    let number = at.line;
    let comment = comment_of(at.why);
    push(comment.strip_prefix(b"# ").unwrap_or(comment), line);
    let _ = write!(
        line,
        " before line {number}: nobody knows how many slots were lost, so M lost slots stand for them"
    );
}

/// Appends how many lines of other programmes were left out, and of which.
fn push_others(counts: SlotCounts, pi: &str, line: &mut Line) {
    let (others, of_first) = (counts.others, counts.of_first_other);
    push_count(
        others,
        "line of another programme than ",
        "lines of other programmes than ",
        line,
    );
    push(pi.as_bytes(), line);
    push_left_out(others, line);
    push_programmes(
        counts.first_other,
        of_first,
        others.saturating_sub(of_first),
        line,
    );
}

/// Appends how many breaks the times of a log have, and where the first one is.
fn push_breaks(breaks: Breaks, line: &mut Line) {
    let which = if breaks.count == 1 { "" } else { "the first " };
    let _ = write!(line, "the times have ");
    push_count(breaks.count, "break", "breaks", line);
    let number = first_line(breaks);
    let _ = write!(line, ", {which}before line {number}");
}

/// Appends how to audit a log with breaks.
fn push_breaks_advice(breaks: Breaks, line: &mut Line) {
    let more = if breaks.count == 1 {
        ""
    } else {
        " and before each later break"
    };
    let number = first_line(breaks);
    let _ = write!(
        line,
        "Do not audit this output: cut the log before line {number}{more}, and audit each part with --running"
    );
}

/// Returns the line of the group after the first break.
pub(crate) fn first_line(breaks: Breaks) -> u64 {
    match breaks.first {
        Some(first) => first.line,
        None => 0,
    }
}

/// Appends how many groups have no time, what a time looks like, and that an audit does not judge these groups.
fn push_untimed(untimed: u64, line: &mut Line) {
    push_count(
        untimed,
        "group without a time",
        "groups without a time",
        line,
    );
    push_left_out(untimed, line);
    let them = if untimed == 1 { "it" } else { "them" };
    let _ = write!(
        line,
        ". A time looks like @2024/06/01 07:58:12.08, 2024-06-01 07:58:12,080, 07:58:12.08, 12.5 or 1717228692080. \
         slots does not read 12,5, 07:58, 07:58:12Z, 01.06.2024 07:58:12, names of months, or a time after another \
         word. An audit of this output does not judge {them}"
    );
}

/// Appends that so many things were left out.
fn push_left_out(count: u64, line: &mut Line) {
    let verb = if count == 1 { "was" } else { "were" };
    let _ = write!(line, " {verb} left out");
}

/// Appends that the times of a log are too coarse, with the slots of the newest stretch that shows it, and what else
/// may be the cause.
fn push_coarse(coarse: CoarseTimes, line: &mut Line) {
    let room = coarse.room;
    let _ = write!(line, "the times vary by more than the grain: ");
    push_count(coarse.slots, "slot was", "slots were", line);
    let _ = write!(
        line,
        " counted where a station sends {room} at most, so slots may be missing elsewhere. Do not audit this output. \
         If the recording lost nothing, audit the log itself"
    );
    if let Some(gap) = coarse.gap {
        let (lost, number) = (gap.lost, gap.line);
        let _ = write!(
            line,
            ". The longest gap has {lost} lost slots, before line {number}: if a clock was set there, cut the log \
             in two"
        );
    }
    if let Some(number) = coarse.misfit {
        let _ = write!(
            line,
            ". A line without a group before line {number} has a time that does not fit the group of that line"
        );
    }
}

/// Appends that lost slots may explain a fault.
fn push_hidden(hidden: Hidden, line: &mut Line) {
    let _ = write!(line, "this fault may be false: ");
    push_count(hidden.lacks, "slot lacks", "slots lack", line);
    let _ = write!(
        line,
        " to M + K, and times in whole seconds can hide {} lost slots",
        hidden.hides
    );
}

/// Appends why a PI code was refused.
fn push_pi(given: &str, line: &mut Line) {
    let _ = write!(line, "fault pi: --pi ");
    push_shown(front(given, PI_ROOM), line);
    let _ = write!(
        line,
        ": a PI code has four hexadecimal digits and no 0x, for example C201"
    );
}

/// Appends why the window of `sim` is refused.
fn push_window(line: &mut Line) {
    let _ = write!(
        line,
        "fault confirm: K + W - 1 is above 1024 slots, the longest lateness of a station"
    );
}

/// Appends a fault of the log or script, of the input or of the output.
fn push_fault(fault: LogFault, run: &Run<'_>, line: &mut Line) {
    match fault {
        LogFault::BadLine(number) => push_bad_line(number, bad_of(run), line),
        LogFault::BadRow(number) => push_bad_row(number, run, line),
        LogFault::Read => push_unread(run, line),
        LogFault::Write => {
            let _ = write!(line, "writing standard output failed");
            push_reason(run, line);
        }
        LogFault::TooLong => push_too_long(run, line),
        LogFault::Memory => push_no_memory(run, line),
    }
}

/// Returns the note on the malformed line.
fn bad_of<'a>(run: &Run<'a>) -> &'a Option<BadStart> {
    if run.slots.read.bad.is_some() {
        return &run.slots.read.bad;
    }
    &run.log.input.read.bad
}

/// Appends that a read failed, of what, and why.
fn push_unread(run: &Run<'_>, line: &mut Line) {
    let _ = write!(line, "fault read: reading ");
    match run.request.file {
        Some(name) => push_name(name, line),
        None => push(b"standard input", line),
    }
    let _ = write!(line, " failed");
    push_reason(run, line);
}

/// Appends the system's reason of a failure.
fn push_reason(run: &Run<'_>, line: &mut Line) {
    if let Some(error) = run.reason {
        let _ = write!(line, ": {error}");
    }
}

/// Appends that memory is out, and for a script what else it may be.
fn push_no_memory(run: &Run<'_>, line: &mut Line) {
    let _ = write!(line, "fault memory: out of memory");
    if reads_script(run) {
        let _ = write!(
            line,
            ", or a line of the script has more than 65,536 commas"
        );
    }
}

/// Appends that the input is too long.
fn push_too_long(run: &Run<'_>, line: &mut Line) {
    let unit = if reads_script(run) { "rows" } else { "reads" };
    let _ = write!(
        line,
        "fault too long: the input has 4294967296 {unit} or more"
    );
}

/// Appends which line is bad, why, and what a line looks like.
fn push_bad_line(number: u64, bad: &Option<BadStart>, line: &mut Line) {
    let _ = write!(line, "fault line {number}: ");
    if let Some(bad) = bad {
        push_shown(bad.start.as_slice(), line);
        if let Some(cause) = bad.cause {
            let _ = write!(line, ": {cause}");
        }
    }
    let _ = write!(line, "; a log line looks like C201 2140 4849 0D20");
}

/// Appends which row is bad, and why.
fn push_bad_row(number: u64, run: &Run<'_>, line: &mut Line) {
    let _ = write!(line, "fault row {number}");
    if let Some(bad) = &run.script.bad {
        let _ = write!(line, " (line {}): ", bad.line);
        push_row_cause(bad.cause, line);
    }
}

/// Returns the first bytes of an argument.
pub(crate) fn front(text: &str, most: usize) -> &[u8] {
    let bytes = text.as_bytes();
    &bytes[..bytes.len().min(most)]
}

/// Appends bytes unchanged.
pub(crate) fn push(bytes: &[u8], line: &mut Line) {
    let _ = line.write(bytes);
}

/// Appends the first bytes of a text between quotation marks, with `\xHH` for a byte that is not printable ASCII.
pub(crate) fn push_shown(bytes: &[u8], line: &mut Line) {
    let _ = write!(line, "\"");
    for &byte in bytes {
        let _ = if byte.is_ascii_graphic() || byte == b' ' {
            write!(line, "{}", char::from(byte))
        } else {
            write!(line, "\\x{byte:02X}")
        };
    }
    let _ = write!(line, "\"");
}

/// Appends the first characters of the name of a file between quotation marks.
fn push_name(name: &str, line: &mut Line) {
    let _ = write!(line, "\"{}\"", Shown::front(name, FILE_ROOM));
}

/// Returns whether the command reads a script instead of a log.
fn reads_script(run: &Run<'_>) -> bool {
    matches!(run.request.task, Task::Encode(..) | Task::Simulate { .. })
}

/// Returns the beginning of a note.
pub(crate) fn begun() -> Line {
    let mut line = Line::new();
    push(BEGUN, &mut line);
    line
}
