//! Keeps all slots of a log in memory.
ghost use Rattle.std.specs.Prelude.{◌≤◌, ◌^◌, IfErr, IfOk};
ghost use Rattle.rds_io.specs.Told.{traffic};
ghost use Rattle.rds_lines.specs.Gather.{GathersAll, GathersNone};
ghost use Rattle.rds_lines.specs.Reads.{MadeReads};

use crate::log_line::LogLine;
use crate::person::news::News;
use crate::person::read_notes::InputNotes;
use crate::source::Source;
use rds_block::Blocks;
use rds_fields::TagGroup;
use rds_io::{LogFault, TellingRead};
use std::alloc::Global;

/// Reads a log with tags in this group type to its end, with at most `reads` reads, and returns the group of each of
/// its slots, the oldest first. Takes notes for a person who asks for this programme, and tells the news. The new notes
/// replace the old content of `notes`.
///
/// # Errors
///
/// The first fault: a malformed line, a failed read, as many reads without an end, or no memory for the slots.
#[tactic(auto, using(crate::proofs::Runs::keeps_said))]
pub fn gather<R: TellingRead, N: News>(
    alloc: Global,
    reader: &mut R,
    pi: u16,
    rtplus: TagGroup,
    reads: u64,
    notes: &mut InputNotes,
    news: &mut N,
) -> Result<Vec<Option<Blocks>>, LogFault>
    requires { reads ≤ 2 ^ 32 }
    ensures all { IfOk result (λ log. GathersAll rtplus
        (traffic R.remaining R.failures reader.old reader.new) log.items) }
    ensures none { IfErr result (λ fault. GathersNone reads
        (traffic R.remaining R.failures reader.old reader.new) fault) }
    ensures reads { MadeReads reads (R.reads reader.old) (R.reads reader.new) result }
{
    *notes = InputNotes::new();
    let mut source = Source::new(reads);
    let mut slots = Vec::new(alloc);
    let mut said = LogLine::Skip;
    loop {
        match source.next(reader, &mut said) {
            Ok(true) => {
                let told = said;
                notes.read.line(told, &source, false, news);
            }
            Ok(false) => {
                notes.slots = slots.len() as u64;
                return Ok(slots);
            }
            Err(fault) => {
                notes.read.bad = source.note(fault);
                return Err(fault);
            }
        }
        let line = said;
        let LogLine::Slot(group) = line else {
            continue;
        };
        let read = rtplus.exchange_read(group);
        // Prover: a value is copied by a new name before its second use (PROVER.md, "Workarounds").
        let heard = read;
        notes.heard.slot(pi, heard);
        if slots.push(read).is_err() {
            return Err(LogFault::Memory);
        }
    }
}
