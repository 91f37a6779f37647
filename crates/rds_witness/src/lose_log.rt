//! The engine of `witness --lose`: finds the mixes of a receiver that loses given slots.
ghost use Rattle.std.specs.Prelude.{◌≡◌, ◌<◌, ◌+◌, ◌^◌, [], ℕ, IfOk, List, OnOk, Option, length};
ghost use Rattle.rds_block.specs.declared.group.Group.{Group};
ghost use Rattle.rds_io.specs.Told.{traffic};
ghost use Rattle.rds_receiver.specs.Receipts.{tuned, Tuning};
ghost use Rattle.rds_lines.specs.Reads.{MadeReads};
ghost use Rattle.rds_witness.specs.Candidates.{AddsSlotOfIt, KnowsFirsts, StandsBefore};
ghost use Rattle.rds_witness.specs.LossLines.{AreLossLines, IsLossAnswer};
ghost use Rattle.rds_witness.specs.Lost.{group_left};
ghost use Rattle.rds_witness.specs.Witness.{Answers, Loses};
ghost use Rattle.rds_witness.specs.declared.burst.Burst.{Burst};

use crate::burst::{Burst, received_of};
use crate::candidate::Candidate;
use crate::firsts::Firsts;
use crate::mix_lines::{ROOM, push_mixes_of};
use rds_block::Blocks;
use rds_fields::{Dwell, TagGroup};
use rds_io::{Lines, LogFault, TellingRead, TellingWrite, WriteFault, put};
use rds_lines::{InputNotes, MOST_READS, News, gather};
use rds_receiver::Receiver;
use std::alloc::{AllocError, Global};

/// A receiver that loses some slots of a log.
#[derive(Clone, Copy)]
pub struct Losing<'a> {
    pub pi: u16,
    /// The group type of the tags.
    pub rtplus: TagGroup,
    /// The dwell of the receiver.
    pub dwell: Dwell,
    /// A thing is no mix if a receiver that loses nothing shows it less than so many slots later.
    pub ahead: Dwell,
    pub lost: &'a [Burst],
}

/// Reads a log of all groups of a station, one slot a line, and writes the line of each mix of a receiver that loses
/// these slots, in the order of the slots. Returns whether there is one. If there is none, writes that. Takes notes for
/// a person.
///
/// # Errors
///
/// The first fault: a malformed line, a failed read or write, 2^32 reads without an end, or out of memory.
pub fn lose_with_notes<R: TellingRead, W: TellingWrite, N: News>(
    alloc: Global,
    reader: &mut R,
    writer: &mut W,
    losing: &Losing<'_>,
    notes: &mut InputNotes,
    news: &mut N,
) -> Result<bool, LogFault>
    ensures loses { Loses losing.now.rtplus (tuned losing.now.pi losing.now.dwell) losing.now.ahead
        losing.now.lost.now
        (traffic R.remaining R.failures reader.old reader.new)
        (traffic W.contents W.failures writer.old writer.new) result }
    ensures reads { MadeReads (2 ^ 32) (R.reads reader.old) (R.reads reader.new) result }
{
    let log = gather(
        alloc,
        reader,
        losing.pi,
        losing.rtplus,
        MOST_READS,
        notes,
        news,
    )?;
    let Ok(lines) = lines_of(alloc, log.as_slice(), losing) else {
        return Err(LogFault::Memory);
    };
    let found = write_lines(lines.as_slice(), writer)?;
    Ok(found)
}

/// Writes the lines of all mixes of a log, or that there is none.
fn write_lines<W: TellingWrite>(lines: &[u8], writer: &mut W) -> Result<bool, WriteFault>
    ensures { (t : Tuning) (ahead : ℕ) (log : List (Option Group)) (lost : List Burst)
        → AreLossLines t ahead log lost (length log) lines.now
        → Answers (IsLossAnswer t ahead lost log) (traffic W.contents W.failures writer.old writer.new) result }
{
    let (found, answer) = answer_of(lines);
    put(answer, writer)?;
    Ok(found)
}

/// Returns whether there are lines, and these, or else the line that says that there is no mix.
fn answer_of(lines: &[u8]) -> (bool, &[u8])
    ensures { (t : Tuning) (ahead : ℕ) (log : List (Option Group)) (lost : List Burst)
        → AreLossLines t ahead log lost (length log) lines.now
        → IsLossAnswer t ahead lost log result.0 result.1.now }
{
    if lines.is_empty() {
        (false, b"no mix with these slots lost\n")
    } else {
        (true, lines)
    }
}

/// Returns the lines of all mixes of a log.
fn lines_of(
    alloc: Global,
    log: &[Option<Blocks>],
    losing: &Losing<'_>,
) -> Result<Vec<u8>, AllocError>
    ensures { IfOk result (λ lines. AreLossLines (tuned losing.now.pi losing.now.dwell) losing.now.ahead log.now
        losing.now.lost.now (length log.now) lines.items) }
{
    let (pi, dwell) = (losing.pi, losing.dwell);
    let firsts = Firsts::of(alloc, log, pi, dwell)?;
    let got = received_of(alloc, log, losing.lost)?;
    let mut receiver = Receiver::new(pi, dwell);
    let mut lines = Vec::new(alloc);
    for slot in 0..log.len() {
        let candidate = Candidate {
            log,
            pi,
            dwell,
            ahead: losing.ahead,
            lost: losing.lost,
            firsts: &firsts,
            words: b"",
            slot,
        };
        play_slot(&candidate, got[slot], &mut receiver, &mut lines)?;
    }
    Ok(lines)
}

/// Lets the receiver handle what it gets in the slot, and appends the lines of the mixes that it shows then.
fn play_slot(
    candidate: &Candidate<'_>,
    group: Option<Blocks>,
    receiver: &mut Receiver,
    lines: &mut Vec<u8>,
) -> Result<(), AllocError>
    requires inside { candidate.now.slot < length candidate.now.log.now }
    requires words { candidate.now.words.now ≡ [] }
    requires got { group ≡ group_left candidate.now.lost.now candidate.now.log.now candidate.now.slot }
    requires firsts { KnowsFirsts candidate.now }
    requires stands { StandsBefore candidate.now.slot candidate.now receiver.old }
    ensures stands { StandsBefore (candidate.now.slot + 1) candidate.now receiver.new }
    ensures lines { OnOk result (AddsSlotOfIt candidate.now lines.old.items lines.new.items) }
{
    let old = *receiver;
    let changed = receiver.slot_blocks(group);
    if !changed {
        return Ok(());
    }
    let (before, after) = (old.view(), receiver.view());
    let mut here = Lines::<ROOM>::new();
    push_mixes_of(candidate, before, after, &mut here);
    lines.extend_from_slice(here.bytes())?;
    Ok(())
}
