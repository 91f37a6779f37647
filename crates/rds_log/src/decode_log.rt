//! The engine of `decode`: the view of a receiver of a log.
ghost use Rattle.std.specs.Prelude.{◌≤◌, ◌^◌};
ghost use Rattle.rds_io.specs.Told.{traffic};
ghost use Rattle.rds_log.specs.Decode.{Decodes};
ghost use Rattle.rds_log.specs.LogWrites.{plain};
ghost use Rattle.rds_lines.specs.Reads.{MadeReads};

use crate::decoder::Decoder;
use crate::person::notes::LogNotes;
use rds_fields::{Dwell, TagGroup};
use rds_io::{LogFault, TellingRead, TellingWrite};
use rds_lines::{MOST_READS, News, NoNews, run};
use rds_receiver::Window;

/// How a log is decoded.
#[derive(Clone, Copy)]
pub struct Decoding {
    /// The programme.
    pub pi: u16,
    /// The group type of its tags.
    pub rtplus: TagGroup,
    /// The dwell M of the receiver.
    pub dwell: Dwell,
    /// With a window the receiver shows only what it heard twice within it.
    pub window: Option<Window>,
    /// Whether the line of a text or a name that is not shown any more says why.
    pub says_why: bool,
    /// For how many slots the display keeps a text and a name that the receiver does not show any more.
    pub keep: u16,
}

/// Writes what a receiver of this programme and this dwell shows while it hears the log, with tags in groups 11A.
///
/// The output for the lines of one read is written before the next read, in one write if the writer takes it whole.
///
/// # Errors
///
/// The first fault: a malformed line, a failed read or write, or 2^32 reads without an end.
pub fn decode<R: TellingRead, W: TellingWrite>(
    reader: &mut R,
    writer: &mut W,
    pi: u16,
    dwell: Dwell,
) -> Result<(), LogFault>
    ensures decodes { Decodes (plain pi dwell) (2 ^ 32)
        (traffic R.remaining R.failures reader.old reader.new)
        (traffic W.contents W.failures writer.old writer.new) result }
    ensures reads { MadeReads (2 ^ 32) (R.reads reader.old) (R.reads reader.new) result }
{
    decode_within(reader, writer, pi, dwell, MOST_READS)
}

/// Does what [`decode`] does with at most `reads` reads. A log that has not ended by then is too long.
pub fn decode_within<R: TellingRead, W: TellingWrite>(
    reader: &mut R,
    writer: &mut W,
    pi: u16,
    dwell: Dwell,
    reads: u64,
) -> Result<(), LogFault>
    requires { reads ≤ 2 ^ 32 }
    ensures decodes { Decodes (plain pi dwell) reads
        (traffic R.remaining R.failures reader.old reader.new)
        (traffic W.contents W.failures writer.old writer.new) result }
    ensures reads { MadeReads reads (R.reads reader.old) (R.reads reader.new) result }
{
    let decoding = Decoding {
        pi,
        rtplus: TagGroup::usual(),
        dwell,
        window: None,
        says_why: false,
        keep: 0,
    };
    decode_with_notes(
        reader,
        writer,
        decoding,
        reads,
        &mut LogNotes::new(),
        &mut NoNews,
    )
}

/// Decodes a log in this way with at most `reads` reads, takes notes for a person, and tells the news. The new notes
/// replace the old content of `notes`. A log that has not ended by then is too long.
pub fn decode_with_notes<R: TellingRead, W: TellingWrite, N: News>(
    reader: &mut R,
    writer: &mut W,
    decoding: Decoding,
    reads: u64,
    notes: &mut LogNotes,
    news: &mut N,
) -> Result<(), LogFault>
    requires { reads ≤ 2 ^ 32 }
    ensures decodes { Decodes decoding reads
        (traffic R.remaining R.failures reader.old reader.new)
        (traffic W.contents W.failures writer.old writer.new) result }
    ensures reads { MadeReads reads (R.reads reader.old) (R.reads reader.new) result }
{
    *notes = LogNotes::new();
    let mut decoder = Decoder::new(decoding);
    let read = &mut notes.input.read;
    let result = run(reader, writer, &mut decoder, reads, read, news);
    notes.input.heard = decoder.heard;
    notes.incomplete = Some(decoder.incomplete);
    notes.input.slots = decoder.views.slot;
    result
}
