//! The engine of `audit`: the first fault of the log of a station, or all of them.
ghost use Rattle.std.specs.Prelude.{◌≤◌, ◌^◌};
ghost use Rattle.rds_io.specs.Told.{traffic};
ghost use Rattle.rds_log.specs.Audit.{complete};
ghost use Rattle.rds_log.specs.FaultList.{Audits, Means};
ghost use Rattle.rds_lines.specs.Reads.{MadeReads};

use crate::auditor::Auditor;
use crate::laws::what_an_answer_means;
use crate::person::notes::LogNotes;
use rds_audit::{LogStart, TextForm};
use rds_fields::{Dwell, Late, TagGroup};
use rds_io::{LogFault, TellingRead, TellingWrite};
use rds_lines::{MOST_READS, News, NoNews, run};

/// Where an audit stops (this project's own rule).
#[derive(Clone, Copy, Debug, PartialEq, Eq)]
pub enum Stop {
    /// After the first slot with a fault, of which it writes the first.
    FirstFault,
    /// At the end of the log: it writes all faults.
    LogEnd,
}

/// How a log is audited.
#[derive(Clone, Copy)]
pub struct Auditing {
    /// The programme.
    pub pi: u16,
    /// The group type of its tags.
    pub rtplus: TagGroup,
    /// The dwell M of the receivers.
    pub dwell: Dwell,
    /// The number K of slots by which their groups may come late.
    pub late: Late,
    /// Whether the log begins with its station.
    pub start: LogStart,
    /// Whether its texts may have padding.
    pub form: TextForm,
    /// Where the audit stops.
    pub stop: Stop,
}

/// Audits the complete log of a station with tags in groups 11A, one slot a line, and writes the answer line: `yes`
/// with the number of slots, or `no` with the first slot that breaks a rule and the name of the fault.
///
/// If the answer is yes, no receiver with this dwell ever shows a mix of the log's texts, provided that its groups come
/// at most this late. If the answer is no, no station that keeps its texts and names apart by M + K slots, and leaves
/// no gap of as many, could have sent the log. `audit` stops reading after the slot that does not pass, and after a
/// fault.
///
/// # Errors
///
/// The first fault: a malformed line, a failed read or write, or 2^32 reads without an end.
pub fn audit<R: TellingRead, W: TellingWrite>(
    reader: &mut R,
    writer: &mut W,
    pi: u16,
    dwell: Dwell,
    late: Late,
) -> Result<bool, LogFault>
    ensures audits { Audits (complete pi dwell late) (2 ^ 32)
        (traffic R.remaining R.failures reader.old reader.new)
        (traffic W.contents W.failures writer.old writer.new) result }
    ensures means { Means (complete pi dwell late)
        (traffic R.remaining R.failures reader.old reader.new) result }
    ensures reads { MadeReads (2 ^ 32) (R.reads reader.old) (R.reads reader.new) result }
{
    audit_within(reader, writer, pi, dwell, late, MOST_READS)
}

/// Does what [`audit`] does with at most `reads` reads. A log that has not ended by then is too long.
pub fn audit_within<R: TellingRead, W: TellingWrite>(
    reader: &mut R,
    writer: &mut W,
    pi: u16,
    dwell: Dwell,
    late: Late,
    reads: u64,
) -> Result<bool, LogFault>
    requires { reads ≤ 2 ^ 32 }
    ensures audits { Audits (complete pi dwell late) reads
        (traffic R.remaining R.failures reader.old reader.new)
        (traffic W.contents W.failures writer.old writer.new) result }
    ensures means { Means (complete pi dwell late)
        (traffic R.remaining R.failures reader.old reader.new) result }
    ensures reads { MadeReads reads (R.reads reader.old) (R.reads reader.new) result }
{
    let auditing = Auditing {
        pi,
        rtplus: TagGroup::usual(),
        dwell,
        late,
        start: LogStart::Complete,
        form: TextForm::Plain,
        stop: Stop::FirstFault,
    };
    audit_with_notes(
        reader,
        writer,
        auditing,
        reads,
        &mut LogNotes::new(),
        &mut NoNews,
    )
}

/// Audits a log in this way with at most `reads` reads, takes notes for a person, and tells the news. The new notes
/// replace the old content of `notes`. A log that has not ended by then is too long.
///
/// For a complete log and the first fault, the output and the answer are those of [`audit_within`]. With all faults, each
/// has a line, the first one as for the first fault alone; a log without a fault gets the line `yes`; the lines for the
/// slots of one read are written before the next read.
///
/// For the log of a running station the answer is that of the log with M + K lost slots in front, and without the tags
/// before its first text segment. Slots count from the first line of the log. A yes speaks of receivers of the log as
/// it is: they may hear these tags.
pub fn audit_with_notes<R: TellingRead, W: TellingWrite, N: News>(
    reader: &mut R,
    writer: &mut W,
    auditing: Auditing,
    reads: u64,
    notes: &mut LogNotes,
    news: &mut N,
) -> Result<bool, LogFault>
    requires { reads ≤ 2 ^ 32 }
    ensures audits { Audits auditing reads
        (traffic R.remaining R.failures reader.old reader.new)
        (traffic W.contents W.failures writer.old writer.new) result }
    ensures means { Means auditing (traffic R.remaining R.failures reader.old reader.new) result }
    ensures reads { MadeReads reads (R.reads reader.old) (R.reads reader.new) result }
{
    what_an_answer_means();
    *notes = LogNotes::new();
    let mut auditor = Auditor::new(auditing);
    let read = &mut notes.input.read;
    let ended = run(reader, writer, &mut auditor, reads, read, news);
    auditor.note(notes);
    ended?;
    if !auditor.passed() {
        return Ok(false);
    }
    auditor.write_yes(writer)?;
    Ok(true)
}
