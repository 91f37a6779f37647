//! The lines of a filled log: each group with its time, and a line for each slot that was lost before it.
ghost use Rattle.std.specs.Prelude.{◌≡◌, ◌⊎◌, ◌<◌, ◌≤◌, ◌+◌, ◌*◌, ◌++◌, ◌∷◌, ◌↔◌, [], ℕ, List, Option, IsTrue};
ghost use Rattle.std.specs.Prelude.{MatchResult, OnOk, Some, codes, is_some, length, max, take, true};
ghost use Rattle.std.proofs.Common.{rules};
ghost use Rattle.rds_block.specs.declared.group.Group.{Group};
ghost use Rattle.rds_io.specs.Told.{traffic};
ghost use Rattle.rds_io.specs.Waits.{Waits};
ghost use Rattle.rds_log.specs.Fill.{IsOfAnother, LinesFill, TimesAre, gap_lines, lost_lines, more_lines};
ghost use Rattle.rds_lines.specs.LineTimes.{break_line};
ghost use Rattle.rds_lines.specs.Inside.Source.{start_of};
ghost use Rattle.rds_lines.specs.LineSays.{LineSays, deciding};
ghost use Rattle.rds_lines.specs.LogLines.{Line};
ghost use Rattle.rds_lines.specs.Outputs.{HasTaken, Pushed, WrotePart};
ghost use Rattle.rds_log.specs.declared.filler.TheConstants.{LINE_ROOM};
ghost use Rattle.rds_lines.specs.declared.log_line.LogLine.TheVariants as LogLine;
ghost use Rattle.rds_lines.specs.declared.run_log.TheConstants.{OUTPUT_ROOM};

use crate::pace::Pace;
use rds_arrivals::{Break, Grain, LastMinute, lost_between};
use rds_fields::Dwell;
use rds_io::{Lines, TellingWrite, WriteFault, word_at};
use rds_lines::{LogLine, News, OUTPUT_ROOM, Source, TIME, TakesLines, comment_of, stamp_of};

/// The most bytes of one line of output.
const LINE_ROOM: usize = 61;

/// The line of a lost slot, without its line feed.
const LOST: &[u8] = b"---- ---- ---- ----";

/// The lines of two lost slots.
const TWO_LOST: &[u8] = b"---- ---- ---- ----\n---- ---- ---- ----\n";

/// How `slots` fills a log.
#[derive(Clone, Copy)]
pub struct Filling {
    /// The programme (PI) of the lines that count. `None` if all lines count.
    pub pi: Option<u16>,
    /// By how much the times may be off.
    pub grain: Grain,
    /// How many slots are lost at a break: the dwell of the receivers of the log.
    pub dwell: Dwell,
}

/// Whether the lost slots of a log can be counted by its times (this project's own rule).
#[derive(Clone, Copy, Debug, PartialEq, Eq)]
pub enum Times {
    /// They can, or the log has no group.
    Fine,
    /// The times are too coarse: more slots were counted than a station sends in that time.
    Coarse,
    /// The times are not too coarse, and they have a break: nobody knows how many slots were lost there.
    Broken,
    /// The log has groups, and all of them were left out: each has no time or is of another programme.
    AllLeftOut,
}

/// The lost slots between two groups of a log (this project's own rule).
#[derive(Clone, Copy, Debug, Default, PartialEq, Eq)]
pub struct Gap {
    /// How many slots were lost.
    pub lost: u32,
    /// The line of the second group, counted from 1.
    pub line: u64,
}

/// What `slots` counts in a log, for a person (this project's own rule). No contract speaks of it.
#[derive(Clone, Copy, Default)]
pub struct SlotCounts {
    /// The number of groups without a time, which were left out.
    pub untimed: u64,
    /// The number of lines with a time that were left out, since they are of another programme.
    pub others: u64,
    /// The PI of the first of these lines.
    pub first_other: Option<u16>,
    /// The number of these lines with this PI.
    pub of_first_other: u64,
    /// The longest gap.
    pub gap: Gap,
    /// The line of the newest group that did not fit a line without a group before it: by the time of that line, more
    /// slots were lost than by the time of the group.
    pub misfit: Option<u64>,
}

impl SlotCounts {
    /// Counts a line of another programme, with these first bytes.
    // Cold path.
    #[inline(never)]
    fn count_other(&mut self, start: &[u8]) {
        self.others = self.others.saturating_add(1);
        if start.len() < 4 {
            return;
        }
        let own = word_at(start, 0);
        if self.first_other.is_none() {
            self.first_other = own;
        }
        if self.first_other == own {
            self.of_first_other = self.of_first_other.saturating_add(1);
        }
    }
}

/// Takes the lines of a log with times for `slots`.
#[derive(Drop)]
pub(crate) struct Filler {
    filling: Filling,
    pub(crate) pace: Pace,
    /// The minute of the newest time.
    minute: LastMinute,
    /// How many lost slots are written since the last group.
    told: u32,
    /// Whether a group was left out.
    has_left_out: bool,
    pub(crate) counts: SlotCounts,
}

impl TakesLines for Filler {
    ghost use Rattle.rds_log.specs.Inside.Filler.{HasFilled, filled_lines, filled_part};

    type How = Filling;

    ghost ROOM = { 0 };

    const ROOM: usize = 0;

    ghost gives = { LinesFill };

    ghost begins = { LinesFill };

    ghost took = { HasFilled };

    ghost done = { λ it. ⊥ };

    ghost counted = { λ it. 0 };

    fn line<W: TellingWrite>(
        &mut self,
        said: LogLine,
        source: &Source,
        output: &mut Lines<OUTPUT_ROOM>,
        writer: &mut W,
    ) -> Result<bool, WriteFault> {
        match said {
            LogLine::Skip => Ok(true),
            LogLine::Slot(group) => {
                self.slot(group.is_some(), source, output, writer)?;
                Ok(true)
            }
        }
    }

    fn tell<N: News>(&self, news: &mut N) {
        if let Some(first) = self.pace.breaks.first {
            news.breaks(first);
        }
        if let Some(other) = self.pace.breaks.other {
            news.breaks(other);
        }
    }

    ghost meant = { filled_lines };

    ghost begun = { filled_part };

    ghost fits = { Prim.search rules };
}

impl Filler {
    ghost use Rattle.rds_log.specs.Inside.Filler.{HasFilled, KeepsTimes, last_time, told_after};

    /// Starts a log.
    pub(crate) fn new(filling: Filling) -> Filler
        ensures { HasFilled filling result [] [] }
    {
        Filler {
            filling,
            pace: Pace::new(filling.grain),
            minute: LastMinute::new(),
            told: 0,
            has_left_out: false,
            counts: SlotCounts::default(),
        }
    }

    /// Returns whether the lost slots so far can be counted by the times.
    pub(crate) fn times(&self) -> Times
        ensures { (how : Filling) (lines : List Line) (total : List ℕ) (has : HasFilled how self.now lines total)
            → TimesAre self.now.filling lines has.so_far.came result }
    {
        if self.pace.coarse.is_some() {
            return Times::Coarse;
        }
        if self.pace.breaks.first.is_some() {
            return Times::Broken;
        }
        if self.pace.stretch.is_none() && self.has_left_out {
            return Times::AllLeftOut;
        }
        Times::Fine
    }

    /// Takes the line of a slot that this source read last, with a whole group or without. One without a time, or of
    /// another programme, is left out. A line without a whole group only tells the time.
    fn slot<W: TellingWrite>(
        &mut self,
        is_group: bool,
        source: &Source,
        output: &mut Lines<OUTPUT_ROOM>,
        writer: &mut W,
    ) -> Result<(), WriteFault>
        ensures { (how : Filling) (start : W) (lines : List Line) (line : Line) (slot : Option Group)
            → LineSays line (LogLine.Slot slot) → is_group ≡ is_some slot → start_of source.now ≡ take deciding line
            → HasTaken (HasFilled how self.old) (traffic W.contents W.failures start writer.old) output.old lines
            → MatchResult result
            (λ _. HasTaken (HasFilled how self.new) (traffic W.contents W.failures start writer.new) output.new
            (line ∷ lines))
            (λ _. WrotePart (LinesFill how) (traffic W.contents W.failures start writer.new) (line ∷ lines)) }
    {
        let first = source.start();
        let Some(stamp) = stamp_of(&mut self.minute, first) else {
            self.counts.untimed = self.counts.untimed.saturating_add(u64::from(is_group));
            self.leave_out(is_group);
            return Ok(());
        };
        if is_of_another(self.filling.pi, first) {
            self.counts.count_other(first);
            self.leave_out(is_group);
            return Ok(());
        }
        let told = self.told;
        self.push_gap(is_group, stamp.time, output, writer)?;
        if !is_group {
            return Ok(());
        }
        self.note_gap(told, stamp.time, source.lines());
        self.pace.add(told, stamp.time, source.lines());
        self.told = 0;
        push_line(&first[..TIME + stamp.end], output, writer)
    }

    /// Leaves out a line of a slot, with a whole group or without.
    fn leave_out(&mut self, is_group: bool)
        ensures count { IsTrue self.new.has_left_out ↔ (IsTrue self.old.has_left_out ⊎ (is_group ≡ true)) }
        ensures kept { self.new ≡ record self.old { has_left_out = self.new.has_left_out } }
    {
        self.has_left_out = self.has_left_out || is_group;
    }

    /// Notes the lost slots before the group of this line, if they are the most so far. `told` of them were told by
    /// lines without a group: if that is more than the time of the group gives, such a line does not fit.
    fn note_gap(&mut self, told: u32, time: u64, number: u64)
        ensures { self.new ≡ record self.old { counts = self.new.counts } }
    {
        if self.told > self.counts.gap.lost {
            self.counts.gap = Gap {
                lost: self.told,
                line: number,
            };
        }
        if told == 0 {
            return;
        }
        if let Some(stretch) = self.pace.stretch
            && let Ok(lost) = lost_between(stretch.last, time, self.filling.grain)
            && lost < told
        {
            self.counts.misfit = Some(number);
        }
    }

    /// Appends the slots that are lost from the last group to this time and are not written yet, and before them the
    /// comment of a break, if a group came at this time.
    #[tactic(auto, using(crate::proofs::Filled::gap_within, crate::proofs::Filled::same_pushed))]
    fn push_gap<W: TellingWrite>(
        &mut self,
        is_group: bool,
        time: u64,
        output: &mut Lines<OUTPUT_ROOM>,
        writer: &mut W,
    ) -> Result<(), WriteFault>
        ensures keeps { KeepsTimes self.old self.new }
        ensures told { self.new.told ≡ told_after self.old.filling (last_time self.old) self.old.told time }
        ensures pushed { (start : W) (total : List ℕ)
            → Waits (traffic W.contents W.failures start writer.old) output.old total
            → Pushed (traffic W.contents W.failures start writer.new) output.new
            (total ++ gap_lines self.old.filling is_group (last_time self.old) self.old.told time) result }
    {
        let Some(stretch) = self.pace.stretch else {
            return Ok(());
        };
        match lost_between(stretch.last, time, self.filling.grain) {
            Ok(lost) => self.push_more(None, lost, output, writer),
            Err(why) => {
                let told = is_group.then_some(why);
                self.push_more(told, u32::from(self.filling.dwell.get()), output, writer)
            }
        }
    }

    /// Appends the comment of a break, and the lost slots of these that are not written yet.
    #[inline(always)]
    fn push_more<W: TellingWrite>(
        &mut self,
        why: Option<Break>,
        lost: u32,
        output: &mut Lines<OUTPUT_ROOM>,
        writer: &mut W,
    ) -> Result<(), WriteFault>
        ensures keeps { KeepsTimes self.old self.new }
        ensures told { self.new.told ≡ max self.old.told lost }
        ensures pushed { (start : W) (total : List ℕ)
            → Waits (traffic W.contents W.failures start writer.old) output.old total
            → Pushed (traffic W.contents W.failures start writer.new) output.new
            (total ++ more_lines why self.old.told lost) result }
    {
        if why.is_none() && lost <= self.told {
            return Ok(());
        }
        let more = lost.saturating_sub(self.told);
        self.told = self.told.max(lost);
        push_comment(why, output, writer)?;
        push_lost(more, output, writer)
    }
}

/// Appends the comment of a break.
// Cold path.
#[inline(never)]
fn push_comment<W: TellingWrite>(
    why: Option<Break>,
    output: &mut Lines<OUTPUT_ROOM>,
    writer: &mut W,
) -> Result<(), WriteFault>
    ensures { (start : W) (total : List ℕ)
        → Waits (traffic W.contents W.failures start writer.old) output.old total
        → Pushed (traffic W.contents W.failures start writer.new) output.new (total ++ break_line why) result }
{
    let Some(why) = why else {
        return Ok(());
    };
    push_line(comment_of(why), output, writer)
}

/// Appends lines of lost slots, and writes the waiting output as often as there is no room.
fn push_lost<W: TellingWrite>(
    lost: u32,
    output: &mut Lines<OUTPUT_ROOM>,
    writer: &mut W,
) -> Result<(), WriteFault>
    ensures { (start : W) (total : List ℕ)
        → Waits (traffic W.contents W.failures start writer.old) output.old total
        → Pushed (traffic W.contents W.failures start writer.new) output.new (total ++ lost_lines lost) result }
{
    push_pairs(lost / 2, output, writer)?;
    if lost % 2 == 0 {
        return Ok(());
    }
    push_line(LOST, output, writer)
}

/// Appends lines of lost slots, two at a time.
fn push_pairs<W: TellingWrite>(
    pairs: u32,
    output: &mut Lines<OUTPUT_ROOM>,
    writer: &mut W,
) -> Result<(), WriteFault>
    ensures { (start : W) (total : List ℕ)
        → Waits (traffic W.contents W.failures start writer.old) output.old total
        → Pushed (traffic W.contents W.failures start writer.new) output.new (total ++ lost_lines (2 * pairs)) result }
{
    for _put in 0..pairs {
        make_room(output, writer)?;
        output.push(TWO_LOST);
    }
    Ok(())
}

/// Appends a line.
fn push_line<W: TellingWrite>(
    line: &[u8],
    output: &mut Lines<OUTPUT_ROOM>,
    writer: &mut W,
) -> Result<(), WriteFault>
    requires { length line.now ≤ 60 }
    ensures { (start : W) (total : List ℕ)
        → Waits (traffic W.contents W.failures start writer.old) output.old total
        → Pushed (traffic W.contents W.failures start writer.new) output.new
        (total ++ (line.now ++ codes "\n")) result }
{
    make_room(output, writer)?;
    output.push(line);
    output.push(b"\n");
    Ok(())
}

/// Writes the waiting output if there is no room for one more line.
fn make_room<W: TellingWrite>(
    output: &mut Lines<OUTPUT_ROOM>,
    writer: &mut W,
) -> Result<(), WriteFault>
    ensures room { OnOk result (length output.new + LINE_ROOM ≤ OUTPUT_ROOM) }
    ensures waits { (start : W) (total : List ℕ)
        → Waits (traffic W.contents W.failures start writer.old) output.old total
        → Pushed (traffic W.contents W.failures start writer.new) output.new total result }
{
    if output.has_room(LINE_ROOM) {
        return Ok(());
    }
    output.write(writer)
}

/// Returns whether the first block is a word other than this PI.
fn is_of_another(pi: Option<u16>, first: &[u8]) -> bool
    requires { 20 ≤ length first.now }
    ensures { IsTrue result ↔ IsOfAnother pi first.now }
{
    let Some(pi) = pi else {
        return false;
    };
    match word_at(first, 0) {
        Some(word) => word != pi,
        None => false,
    }
}
