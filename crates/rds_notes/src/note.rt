//! The notes of a run, as values.

use arrayvec::ArrayVec;
use rds_arrivals::Grain;
use rds_audit::AuditFault;
use rds_cli::{End, Request, Task};
use rds_fields::{ANNOUNCEMENT_CODE, NAME_CODE, RADIOTEXT_CODE, RTPLUS_AID, RTPLUS_CODE, TagGroup};
use rds_io::LogFault;
use rds_lines::{BreakPlace, GroupCounts, Lack};
use rds_log::{Breaks, FaultCount, Gap, LogNotes, NoNote, SegmentCause, SlotCounts, SlotNotes};
use rds_script::{EarlySet, ScriptNotes};
use std::io::{self, ErrorKind};

/// The most notes of a run: one for each kind of fault of a text, of a name and of tags before the first text, and at
/// most sixteen others.
const MOST_NOTES: usize = 31;

/// The texts of a recording that its start and its end may cut.
const CUT_TEXTS: u64 = 2;

/// The code of group type 2B.
const SHORT_TEXT_CODE: u8 = 5;

/// What a run met (this project's own rule).
#[derive(Clone, Copy)]
pub struct Run<'a> {
    pub request: &'a Request<'a>,
    pub end: End,
    /// Notes on the log of `decode`, `audit` and `witness`.
    pub log: &'a LogNotes,
    /// Notes on the log of `slots`.
    pub slots: &'a SlotNotes,
    /// Notes on the script of `encode` and `sim`.
    pub script: &'a ScriptNotes,
    /// The system's error of a failed read or write.
    pub reason: Option<&'a io::Error>,
}

impl Run<'_> {
    /// Returns whether the reader of a pipe has gone.
    fn is_gone(&self) -> bool {
        match self.reason {
            Some(error) => error.kind() == ErrorKind::BrokenPipe,
            None => false,
        }
    }
}

/// Tells whose fault it is.
#[derive(Clone, Copy)]
pub(crate) enum FaultOf {
    /// Tags before the first text.
    Before,
    Text,
    Name,
}

/// What a log has of its programme.
#[derive(Clone, Copy)]
pub(crate) struct Judged {
    pub(crate) slots: u64,
    /// The slots without a group of the programme.
    pub(crate) empty: u64,
    pub(crate) texts: u64,
    pub(crate) names: u64,
    /// The pairs of tags.
    pub(crate) tags: u64,
    /// The groups 2B, which nothing here reads.
    pub(crate) short: u64,
}

/// How many texts came, and how many of them were complete. A receiver shows no other text.
#[derive(Clone, Copy)]
pub(crate) struct Incomplete {
    pub(crate) texts: u64,
    pub(crate) complete: u64,
    /// How many of them have no carriage return, for `decode`.
    pub(crate) endless: Option<u64>,
}

/// Which programmes a log has, if it has none of the wanted one.
#[derive(Clone, Copy)]
pub(crate) struct OtherGroups<'a> {
    pub(crate) request: &'a Request<'a>,
    /// Whether the input is empty.
    pub(crate) is_empty: bool,
    pub(crate) slots: u64,
    /// The programme of the first group.
    pub(crate) first: Option<u16>,
    /// The number of its groups, and of the groups of all other programmes.
    pub(crate) of_first: u64,
    pub(crate) others: u64,
}

/// The groups in which the programme has its tags, if these are others than those that were read.
#[derive(Clone, Copy)]
pub(crate) struct Elsewhere {
    /// Their type, as five bits.
    pub(crate) code: u8,
    /// The type of those that were read as tags.
    pub(crate) read: u8,
    /// Whether they can be read with `--rtplus`.
    pub(crate) may_be_read: bool,
    pub(crate) groups: u64,
    /// Whether an audit would have judged them.
    pub(crate) judges: bool,
}

/// Another application in the groups of the tags.
#[derive(Clone, Copy)]
pub(crate) struct OtherInTags {
    pub(crate) aid: u16,
    /// The type of these groups, as five bits.
    pub(crate) read: u8,
    /// Whether an audit read them as tags. Receivers ignore them.
    pub(crate) judges: bool,
}

/// Why the lost slots of a log cannot be counted by its times.
#[derive(Clone, Copy)]
pub(crate) struct CoarseTimes {
    /// The slots that were counted where a station sends `room` at most.
    pub(crate) slots: u64,
    pub(crate) room: u64,
    /// The longest gap, if it is longer than the dwell.
    pub(crate) gap: Option<Gap>,
    /// The line of a group that does not fit a line without a group before it.
    pub(crate) misfit: Option<u64>,
    /// How many lost slots the times can hide, if they are in whole seconds.
    pub(crate) hides: Option<u64>,
}

/// A fault that lost slots would explain, in a log whose times can hide them.
#[derive(Clone, Copy)]
pub(crate) struct Hidden {
    /// The slots that lack to M + K.
    pub(crate) lacks: u64,
    /// How many lost slots the times can hide.
    pub(crate) hides: u64,
}

/// A note of a run, for a person or for a program: its sentence and its object are made from this value alone (this
/// project's own rule).
#[derive(Clone, Copy, Default)]
pub(crate) enum Note<'a> {
    /// The input of `slots`, or the script of `encode` and `sim`, is empty.
    Empty,
    /// The first thing that was set too early.
    SetTooEarly(EarlySet),
    /// A log that breaks a rule has no time and no lost slot: its recorder may have left out lost groups.
    MayLack,
    /// The rule that a log breaks first.
    BrokenRule(NoNote, &'a Request<'a>),
    /// How often a fault came, of so many texts or names.
    Found(FaultOf, u64, FaultCount),
    /// A log has fewer lines than slots by its times.
    Lacking(Lack),
    /// The times of a log, in whole seconds, hide as many slots as lack.
    WholeSeconds(Hidden),
    /// So many groups without a time were left out.
    Untimed(u64),
    /// Lines of other programmes than this one were left out.
    OthersLeftOut(SlotCounts, &'a str),
    /// The times of a log vary by more than the grain.
    Coarse(CoarseTimes),
    /// The breaks in the times of a log: an audit of the output of `slots` says nothing.
    Breaks(Breaks),
    /// Nobody knows how many slots were lost at this break, which `slots` just met.
    Break(BreakPlace),
    /// The log has no group of the programme.
    NoGroup(OtherGroups<'a>),
    /// The programme has no group of a text, a name or tags, and so many groups 2B.
    NothingToRead(u64, &'a Request<'a>),
    /// Texts came that were not complete.
    Incomplete(Incomplete),
    /// In so many of so many slots no text segment had come for M slots.
    Paused(u64, u64, &'a Request<'a>),
    /// What was judged.
    Judged(Judged),
    /// A log with times has a group of the programme in fewer than nine tenths of its slots: so many of so many.
    Few(u64, u64, &'a str),
    /// So many groups 2B were not read.
    ShortTexts(u64),
    /// The tags of the programme are in other groups.
    TagsElsewhere(Elsewhere),
    /// The groups of the tags carry another application.
    OtherApplication(OtherInTags),
    /// So many groups of the programme had one lost block, and so many none.
    Damaged(u64, u64, &'a str),
    /// Why this PI code was refused.
    BadPi(&'a str),
    /// Why the window of `sim` was refused.
    #[default]
    BadWindow,
    /// Why the slots to lose were refused.
    BadSpans(&'a Request<'a>),
    /// The fault at which the run stopped.
    Fault(LogFault, &'a Run<'a>),
}

/// The notes of a run, in the order in which they are printed.
pub(crate) type Notes<'a> = ArrayVec<Note<'a>, MOST_NOTES>;

/// Returns the notes of a run: with `--quiet` only why it stopped.
pub(crate) fn notes_of<'a>(run: &'a Run<'a>) -> Notes<'a> {
    let mut notes = Notes::new();
    if !run.request.quiet {
        if is_empty(run) {
            add(Note::Empty, &mut notes);
        }
        note_script(run, &mut notes);
        note_faults(run, &mut notes);
        note_slots(run, &mut notes);
        note_tags(run, &mut notes);
        note_groups(run, &mut notes);
        note_damaged(run, &mut notes);
    }
    if let Some(note) = end_note(run) {
        add(note, &mut notes);
    }
    notes
}

/// Adds a note.
fn add<'a>(note: Note<'a>, notes: &mut Notes<'a>) {
    let _ = notes.try_push(note);
}

/// Returns whether `slots` read no line, or `encode` or `sim` no row, and no fault ended it.
fn is_empty(run: &Run<'_>) -> bool {
    let had_nothing = match run.request.task {
        Task::Encode(..) | Task::Simulate { .. } => !run.script.has_row,
        Task::Slots(..) => run.slots.read.is_empty,
        Task::Decode { .. } | Task::Witness | Task::Lose { .. } | Task::Audit { .. } => false,
    };
    had_nothing && matches!(run.end, End::Done)
}

/// Notes what was set too early.
fn note_script<'a>(run: &'a Run<'a>, notes: &mut Notes<'a>) {
    if let Some(wait) = run.script.wait {
        add(Note::SetTooEarly(wait), notes);
    }
}

/// Notes the faults of a log, and that it lacks slots. After a failed write they were not all taken.
fn note_faults<'a>(run: &'a Run<'a>, notes: &mut Notes<'a>) {
    let log = &run.log;
    let is_written = !matches!(run.end, End::Fault(LogFault::Write));
    if is_written && may_lack(run) {
        add(Note::MayLack, notes);
    }
    if let Some(no) = log.no {
        add(Note::BrokenRule(no, run.request), notes);
    }
    if is_written {
        note_counts(FaultOf::Before, 0, log.faults.before.counts, notes);
        note_counts(FaultOf::Text, log.texts, log.faults.texts.counts, notes);
        note_counts(FaultOf::Name, log.names, log.faults.names.counts, notes);
    }
    if let Some(lack) = lack_of(run) {
        add(Note::Lacking(lack), notes);
    } else if let Some(hidden) = hidden_of(run) {
        add(Note::WholeSeconds(hidden), notes);
    }
}

/// Returns whether a log breaks a rule and shows no loss, since each line is a group of its programme and none has a time.
/// So nobody knows whether its recorder left out lost groups.
fn may_lack(run: &Run<'_>) -> bool {
    let (log, input) = (&run.log, &run.log.input);
    let faults = &log.faults;
    let is_of_loss = match log.no {
        Some(no) => makes_no(no),
        None => {
            makes_one(faults.before.counts)
                || makes_one(faults.texts.counts)
                || makes_one(faults.names.counts)
        }
    };
    is_of_loss && input.read.times.has_none() && input.heard.counts.total() == input.slots
}

/// Returns whether lost slots can make this no: not if a segment alone fits no text.
fn makes_no(no: NoNote) -> bool {
    match no.cause {
        Some(SegmentCause::Byte(..)) | Some(SegmentCause::AfterReturn(..)) => false,
        Some(SegmentCause::PastReturn(_))
        | Some(SegmentCause::EarlyReturn(_))
        | Some(SegmentCause::NoReturn) => true,
        None => no.fault != AuditFault::NotOneText,
    }
}

/// Returns whether lost slots can make one of these faults. The counts do not say which segments fit no text.
fn makes_one(counts: [Option<FaultCount>; 5]) -> bool {
    for count in counts {
        if let Some(count) = count
            && count.fault != AuditFault::NotOneText
        {
            return true;
        }
    }
    false
}

/// Notes how often each fault came, of so many texts or names.
fn note_counts(of: FaultOf, judged: u64, counts: [Option<FaultCount>; 5], notes: &mut Notes<'_>) {
    for count in counts {
        if let Some(count) = count {
            add(Note::Found(of, judged, count), notes);
        }
    }
}

/// Notes what `slots` left out, and what it could not count.
fn note_slots<'a>(run: &'a Run<'a>, notes: &mut Notes<'a>) {
    let counts = run.slots.counts;
    if counts.untimed > 0 {
        add(Note::Untimed(counts.untimed), notes);
    }
    if counts.others > 0 {
        add(Note::OthersLeftOut(counts, run.request.pi), notes);
    }
    if let Some(coarse) = coarse_times(run) {
        add(Note::Coarse(coarse), notes);
    }
    let breaks = run.slots.breaks;
    if breaks.count > 0 {
        add(Note::Breaks(breaks), notes);
    }
}

/// Returns why the times of a log are too coarse.
fn coarse_times(run: &Run<'_>) -> Option<CoarseTimes> {
    let stretch = run.slots.coarse?;
    let Task::Slots(grain, _) = run.request.task else {
        return None;
    };
    let gap = run.slots.counts.gap;
    let is_long = gap.lost > u32::from(run.request.dwell.get());
    Some(CoarseTimes {
        slots: stretch.slots,
        room: stretch.room(Grain::of_milliseconds(grain)),
        gap: if is_long { Some(gap) } else { None },
        misfit: run.slots.counts.misfit,
        hides: run.slots.read.times.hides(),
    })
}

/// Notes what a command read of its programme, if it read a log to its end and the audit did not stop at a fault.
fn note_groups<'a>(run: &'a Run<'a>, notes: &mut Notes<'a>) {
    let judges = match run.request.task {
        Task::Decode { .. } | Task::Witness | Task::Lose { .. } => false,
        Task::Audit { .. } => true,
        Task::Encode(..) | Task::Simulate { .. } | Task::Slots(..) => return,
    };
    if !matches!(run.end, End::Done) || run.log.no.is_some() {
        return;
    }
    let heard = run.log.input.heard;
    let short = heard.counts.of(SHORT_TEXT_CODE);
    if !heard.wanted {
        add(
            Note::NoGroup(OtherGroups {
                request: run.request,
                is_empty: run.log.input.read.is_empty,
                slots: run.log.input.slots,
                first: heard.first,
                of_first: heard.of_first,
                others: heard.groups.saturating_sub(heard.of_first),
            }),
            notes,
        );
    } else if reads_nothing(&heard.counts) {
        add(Note::NothingToRead(short, run.request), notes);
    } else if judges {
        note_judged(run, short, notes);
    } else {
        note_incomplete(run, notes);
        if short > 0 {
            add(Note::ShortTexts(short), notes);
        }
    }
}

/// Notes that `decode` met texts and no complete one.
fn note_incomplete<'a>(run: &'a Run<'a>, notes: &mut Notes<'a>) {
    if let Some(came) = run.log.incomplete
        && !came.is_over
        && came.texts > 0
    {
        add(
            Note::Incomplete(Incomplete {
                texts: came.texts,
                complete: 0,
                endless: Some(came.endless()),
            }),
            notes,
        );
    }
}

/// Notes where the tags of the programme are, if they are not in the groups of the tags, or what is in these.
fn note_tags<'a>(run: &'a Run<'a>, notes: &mut Notes<'a>) {
    if !reads_log(run) {
        return;
    }
    let heard = run.log.input.heard;
    let judges = matches!(run.request.task, Task::Audit { .. });
    let rtplus = run.request.rtplus;
    let read = rtplus.exchange_code(RTPLUS_CODE);
    if let Some(code) = heard.announced.rtplus
        && !is_read(code)
        && heard.counts.of(code) > 0
    {
        add(
            Note::TagsElsewhere(Elsewhere {
                code: rtplus.exchange_code(code),
                read,
                may_be_read: code & 1 == 0 && TagGroup::new(code >> 1).is_some(),
                groups: heard.counts.of(code),
                judges,
            }),
            notes,
        );
    }
    if let Some(aid) = heard.announced.in_11a
        && aid != RTPLUS_AID
        && heard.counts.of(RTPLUS_CODE) > 0
    {
        add(
            Note::OtherApplication(OtherInTags { aid, read, judges }),
            notes,
        );
    }
}

/// Returns whether groups of this type are read: texts, announcements, names and tags.
fn is_read(code: u8) -> bool {
    [RADIOTEXT_CODE, ANNOUNCEMENT_CODE, NAME_CODE, RTPLUS_CODE].contains(&code)
}

/// Notes how many groups `decode` could not use, since one block was lost.
fn note_damaged<'a>(run: &'a Run<'a>, notes: &mut Notes<'a>) {
    let heard = run.log.input.heard;
    if matches!(run.request.task, Task::Decode { .. }) && reads_log(run) && heard.damaged > 0 {
        add(
            Note::Damaged(heard.damaged, heard.counts.total(), run.request.pi),
            notes,
        );
    }
}

/// Returns whether a run read a log of its programme, and no fault ended it.
fn reads_log(run: &Run<'_>) -> bool {
    let of_log = match run.request.task {
        Task::Decode { .. } | Task::Witness | Task::Lose { .. } | Task::Audit { .. } => true,
        Task::Encode(..) | Task::Simulate { .. } | Task::Slots(..) => false,
    };
    of_log && matches!(run.end, End::Done)
}

/// Notes what an audit judged. First whether much of the log is missing, and whether receivers show its texts: in a
/// recording the first text and the last one may be cut.
fn note_judged<'a>(run: &'a Run<'a>, short: u64, notes: &mut Notes<'a>) {
    let log = &run.log;
    let groups = log.input.heard.counts.total();
    if log.input.read.times.has_times()
        && groups.saturating_mul(10) < log.input.slots.saturating_mul(9)
    {
        add(Note::Few(groups, log.input.slots, run.request.pi), notes);
    }
    let (texts, complete) = (log.texts, log.complete);
    if texts > 0 && (complete == 0 || texts.saturating_sub(complete) > CUT_TEXTS) {
        add(
            Note::Incomplete(Incomplete {
                texts,
                complete,
                endless: None,
            }),
            notes,
        );
    }
    if log.paused > 0 {
        add(
            Note::Paused(log.paused, log.input.slots, run.request),
            notes,
        );
    }
    add(
        Note::Judged(Judged {
            slots: log.input.slots,
            empty: log.input.slots.saturating_sub(groups),
            texts: log.texts,
            names: log.names,
            tags: log.tags,
            short,
        }),
        notes,
    );
}

/// Returns whether no group of a text, a name or tags was counted.
fn reads_nothing(counts: &GroupCounts) -> bool {
    counts.of(RADIOTEXT_CODE) == 0 && counts.of(NAME_CODE) == 0 && counts.of(RTPLUS_CODE) == 0
}

/// Returns by how much a log has too few lines for its times. After a no the lines up to it decide, since the log was
/// not read to its end: also if as many are missing as would have made it no fault.
fn lack_of(run: &Run<'_>) -> Option<Lack> {
    let times = run.log.input.read.times;
    match (run.end, run.log.no) {
        (End::Done, None) => times.lack(run.log.input.slots),
        (End::Done, Some(no)) => times.lack_of_some(slots_to_cure(no)),
        _ => None,
    }
}

/// Returns the slots that lack where the audit stopped, if the times of the log can hide as many.
fn hidden_of(run: &Run<'_>) -> Option<Hidden> {
    let lacks = slots_to_cure(run.log.no?);
    let hides = run.log.input.read.times.hides()?;
    if lacks > hides {
        return None;
    }
    Some(Hidden { lacks, hides })
}

/// Returns how many slots more would have made this no fault: those that lack to the spacing.
fn slots_to_cure(no: NoNote) -> u64 {
    let had = match no.earlier {
        Some(earlier) => no.at.slot.saturating_sub(earlier),
        None => 0,
    };
    u64::from(no.spacing).saturating_sub(had)
}

/// Returns the note on why a run stopped. If nobody reads its output any more, no fault is noted.
fn end_note<'a>(run: &'a Run<'a>) -> Option<Note<'a>> {
    match run.end {
        End::NotRun | End::Done => None,
        End::BadPi => Some(Note::BadPi(run.request.pi)),
        End::BadWindow => Some(Note::BadWindow),
        End::BadSpans => Some(Note::BadSpans(run.request)),
        End::Fault(_) if run.is_gone() => None,
        End::Fault(fault) => Some(Note::Fault(fault, run)),
    }
}
