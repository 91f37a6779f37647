//! The loop over the lines of a log, for all engines that write output while they read.
ghost use Rattle.std.specs.Prelude.{◌≡◌, ◌≢◌, ◌≤◌, ◌<◌, ◌+◌, ◌^◌, ◌∷◌, ◌↔◌, [], ℕ, List, IfOk, MatchResult, OnOk};
ghost use Rattle.std.specs.Prelude.{false, length, take};
ghost use Rattle.rds_io.specs.Told.{traffic};
ghost use Rattle.rds_lines.specs.Inside.Source.{start_of};
ghost use Rattle.rds_lines.specs.LineSays.{LineSays, deciding};
ghost use Rattle.rds_lines.specs.LogLines.{Line};
ghost use Rattle.rds_lines.specs.Outputs.{HasTaken, Runs, WrotePart};
ghost use Rattle.rds_lines.specs.Reads.{MadeReads};
ghost use Rattle.rds_lines.specs.declared.run_log.TheConstants.{OUTPUT_ROOM};

use crate::log_line::LogLine;
use crate::person::news::News;
use crate::person::read_notes::ReadNotes;
use crate::source::Source;
use rds_io::{Lines, LogFault, TellingRead, TellingWrite, WriteFault};

/// The most reads of a log. A longer log is too long.
pub const MOST_READS: u64 = 1 << 32;

/// The most bytes of output that wait to be written.
pub const OUTPUT_ROOM: usize = 8192;

/// Takes the lines of a log, and appends their output.
pub trait TakesLines {
    /// How it takes them.
    type How;

    ghost ROOM: { ℕ };

    /// The room that it needs for a line. If a line needs more, it writes the waiting output itself.
    const ROOM: usize;

    /// The lines have this output, and more lines are wanted.
    ghost gives: { Self.How → List Line → List ℕ → Type 0 };

    /// The lines have an output that begins with a part of this one.
    ghost begins: { Self.How → List Line → List ℕ → Type 0 };

    /// It took the lines, and this is their output.
    ghost took: { Self.How → Self → List Line → List ℕ → Type 0 };

    /// It wants no more lines.
    ghost done: { Self → Type 0 };

    /// The number of slots that it took.
    ghost counted: { Self → ℕ };

    /// Takes the meaning of the line that this source read last. Returns whether it wants more lines.
    fn line<W: TellingWrite>(
        &mut self,
        said: LogLine,
        source: &Source,
        output: &mut Lines<OUTPUT_ROOM>,
        writer: &mut W,
    ) -> Result<bool, WriteFault>
        requires wants { done self.old → ⊥ }
        requires few { counted self.old < 2 ^ 63 }
        requires room { length output.old + ROOM ≤ OUTPUT_ROOM }
        ensures wants { IfOk result (λ wants. (wants ≡ false) ↔ done self.new) }
        ensures few { OnOk result (counted self.new ≤ counted self.old + 1) }
        ensures takes { (how : Self.How) (start : W) (lines : List Line) (line : Line) → LineSays line said
            → start_of source.now ≡ take deciding line
            → HasTaken (took how self.old) (traffic W.contents W.failures start writer.old) output.old lines
            → MatchResult result
            (λ _. HasTaken (took how self.new) (traffic W.contents W.failures start writer.new) output.new
            (line ∷ lines))
            (λ _. WrotePart (begins how) (traffic W.contents W.failures start writer.new) (line ∷ lines)) };

    /// Tells what a person wants to know at the end of a read.
    fn tell<N: News>(&self, news: &mut N);

    /// While it wants more lines, what it appended is the output of its lines.
    ghost meant: { (how : Self.How) (it : Self) (lines : List Line) (total : List ℕ) → took how it lines total
        → (done it → ⊥) → gives how lines total };

    /// What it appended begins the output of its lines.
    ghost begun: { (how : Self.How) (it : Self) (lines : List Line) (total : List ℕ) → took how it lines total
        → total ≢ [] → begins how lines total };

    /// An empty output has room.
    ghost fits: { ROOM ≤ 8192 };
}

/// Gives the lines of a log to a taker that has none yet, with at most `reads` reads, up to the end of the log or until
/// the taker wants no more. The output for the lines of one read is written before the next read. Takes notes on the
/// lines, and tells the news at the end of each read.
///
/// # Errors
///
/// The first fault: a malformed line, a failed read or write, or as many reads without an end.
#[inline(always)]
pub fn run<T: TakesLines, R: TellingRead, W: TellingWrite, N: News>(
    reader: &mut R,
    writer: &mut W,
    taker: &mut T,
    reads: u64,
    notes: &mut ReadNotes,
    news: &mut N,
) -> Result<(), LogFault>
    requires reads { reads ≤ 2 ^ 32 }
    requires none { T.counted taker.old ≡ 0 }
    requires wants { T.done taker.old → ⊥ }
    ensures runs { (how : T.How) → T.took how taker.old [] []
        → Runs (T.gives how) (T.begins how) (T.took how taker.new) (T.done taker.new) reads
        (traffic R.remaining R.failures reader.old reader.new)
        (traffic W.contents W.failures writer.old writer.new) result }
    ensures reads { MadeReads reads (R.reads reader.old) (R.reads reader.new) result }
{
    let mut source = Source::new(reads);
    let mut output = Lines::new();
    let mut said = LogLine::Skip;
    loop {
        let wants = match source.next(reader, &mut said) {
            Ok(true) => taker.line(said, &source, &mut output, writer)?,
            Ok(false) => return Ok(()),
            Err(fault) => {
                output.write(writer)?;
                taker.tell(news);
                notes.bad = source.note(fault);
                return Err(fault);
            }
        };
        notes.line(said, &source, !wants, news);
        if !wants || !source.has_line() || !output.has_room(T::ROOM) {
            output.write(writer)?;
            if !wants {
                return Ok(());
            }
            taker.tell(news);
        }
    }
}
