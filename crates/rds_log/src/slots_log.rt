//! The engine of `slots`: the log with a line for each slot.
ghost use Rattle.std.specs.Prelude.{◌^◌};
ghost use Rattle.rds_io.specs.Told.{traffic};
ghost use Rattle.rds_log.specs.Fill.{Fills};
ghost use Rattle.rds_lines.specs.Reads.{MadeReads};

use crate::breaks::Breaks;
use crate::filler::{Filler, Filling, SlotCounts, Times};
use rds_arrivals::Stretch;
use rds_io::{LogFault, TellingRead, TellingWrite};
use rds_lines::{MOST_READS, News, ReadNotes, run};

/// Notes of `slots` for a person (this project's own rule). No contract speaks of them.
#[derive(Drop)]
pub struct SlotNotes {
    /// What was counted in the log.
    pub counts: SlotCounts,
    /// The breaks in its times.
    pub breaks: Breaks,
    /// The newest stretch whose times were too coarse to count slots by, up to its newest group at which they were.
    pub coarse: Option<Stretch>,
    /// Notes on the reading of the log.
    pub read: ReadNotes,
}

impl SlotNotes {
    /// Makes empty notes.
    pub fn new() -> SlotNotes {
        SlotNotes {
            counts: SlotCounts::default(),
            breaks: Breaks::none(),
            coarse: None,
            read: ReadNotes::new(),
        }
    }
}

/// Writes the log with a line for each slot: each group with its time, and the slots that were lost before it. Takes
/// notes for a person, and tells the news of breaks. The new notes replace the old content of `notes`.
///
/// Returns whether the slots can be counted by the times. The output is complete in any case. The output for the lines
/// of one read is written before the next read.
///
/// # Errors
///
/// The first fault: a malformed line, a failed read or write, or 2^32 reads without an end.
pub fn fill_with_notes<R: TellingRead, W: TellingWrite, N: News>(
    reader: &mut R,
    writer: &mut W,
    filling: Filling,
    notes: &mut SlotNotes,
    news: &mut N,
) -> Result<Times, LogFault>
    ensures fills { Fills filling (traffic R.remaining R.failures reader.old reader.new)
        (traffic W.contents W.failures writer.old writer.new) result }
    ensures reads { MadeReads (2 ^ 32) (R.reads reader.old) (R.reads reader.new) result }
{
    *notes = SlotNotes::new();
    let mut filler = Filler::new(filling);
    run(
        reader,
        writer,
        &mut filler,
        MOST_READS,
        &mut notes.read,
        news,
    )?;
    notes.counts = filler.counts;
    notes.breaks = filler.pace.breaks;
    notes.coarse = filler.pace.coarse;
    Ok(filler.times())
}
