//! The engine of `witness`: finds a receiver that shows a mix because the log breaks a rule.
ghost use Rattle.std.specs.Prelude.{◌≡◌, ◌^◌, [], length};
ghost use Rattle.rds_io.specs.Told.{traffic};
ghost use Rattle.rds_receiver.specs.Receipts.{tuned};
ghost use Rattle.rds_lines.specs.Reads.{MadeReads};
ghost use Rattle.rds_witness.specs.Firsts.{AreFirsts};
ghost use Rattle.rds_witness.specs.Lines.{IsAnswer, no_witness_up_to};
ghost use Rattle.rds_witness.specs.Search.{IsSure};
ghost use Rattle.rds_witness.specs.Witness.{Answers, Witnesses};

use crate::firsts::Firsts;
use crate::mix_lines::{ROOM, push_mixes};
use crate::search::{Found, find};
use rds_block::Blocks;
use rds_fields::{Dwell, TagGroup};
use rds_io::{Lines, LogFault, TellingRead, TellingWrite, WriteFault, put};
use rds_lines::{InputNotes, MOST_READS, News, NoNews, gather};
use std::alloc::Global;

/// Reads a log of all groups of a station with tags in groups 11A, one slot a line, and looks for a burst of lost slots
/// after which a receiver shows a mix. If there is one, writes the lost slots and the line of each mix of the first
/// slot that has one, and returns true. If not, writes that no witness was found, and returns false. Then no burst
/// makes a receiver show a mix, or none before the slot at which the line says that the search stopped.
///
/// A tag of a pair that the station replaced in the run of its text does not count as a mix.
///
/// # Errors
///
/// The first fault: a malformed line, a failed read or write, 2^32 reads without an end, or out of memory.
pub fn witness<R: TellingRead, W: TellingWrite>(
    alloc: Global,
    reader: &mut R,
    writer: &mut W,
    pi: u16,
    dwell: Dwell,
) -> Result<bool, LogFault>
    ensures witnesses { Witnesses 11 (tuned pi dwell) (traffic R.remaining R.failures reader.old reader.new)
        (traffic W.contents W.failures writer.old writer.new) result }
    ensures reads { MadeReads (2 ^ 32) (R.reads reader.old) (R.reads reader.new) result }
{
    let (mut notes, mut news) = (InputNotes::new(), NoNews);
    let rtplus = TagGroup::usual();
    witness_with_notes(
        alloc, reader, writer, pi, rtplus, dwell, &mut notes, &mut news,
    )
}

/// Does what [`witness`] does for tags in this group type, and takes notes for a person.
pub fn witness_with_notes<R: TellingRead, W: TellingWrite, N: News>(
    alloc: Global,
    reader: &mut R,
    writer: &mut W,
    pi: u16,
    rtplus: TagGroup,
    dwell: Dwell,
    notes: &mut InputNotes,
    news: &mut N,
) -> Result<bool, LogFault>
    ensures witnesses { Witnesses rtplus (tuned pi dwell) (traffic R.remaining R.failures reader.old reader.new)
        (traffic W.contents W.failures writer.old writer.new) result }
    ensures reads { MadeReads (2 ^ 32) (R.reads reader.old) (R.reads reader.new) result }
{
    let log = gather(alloc, reader, pi, rtplus, MOST_READS, notes, news)?;
    let Ok(found) = find(alloc, log.as_slice(), pi, dwell) else {
        return Err(LogFault::Memory);
    };
    let Ok(firsts) = Firsts::of(alloc, log.as_slice(), pi, dwell) else {
        return Err(LogFault::Memory);
    };
    let found = answer(log.as_slice(), &firsts, pi, dwell, found, writer)?;
    Ok(found)
}

/// Writes the answer to a log.
fn answer<W: TellingWrite>(
    log: &[Option<Blocks>],
    firsts: &Firsts,
    pi: u16,
    dwell: Dwell,
    found: Found,
    writer: &mut W,
) -> Result<bool, WriteFault>
    requires { AreFirsts (tuned pi dwell) log.now (length log.now) firsts.now }
    ensures { IsSure (tuned pi dwell) log.now found
        → Answers (IsAnswer (tuned pi dwell) log.now) (traffic W.contents W.failures writer.old writer.new) result }
{
    let mut lines = Lines::new();
    let is_found = push_answer(log, firsts, pi, dwell, found, &mut lines);
    put(lines.bytes(), writer)?;
    Ok(is_found)
}

/// Appends the answer to a log: the mixes of the witness, or that no witness was found.
#[tactic(auto, using(std::proofs::lemmas::Bool::Decides::nat_tests))]
fn push_answer(
    log: &[Option<Blocks>],
    firsts: &Firsts,
    pi: u16,
    dwell: Dwell,
    found: Found,
    lines: &mut Lines<ROOM>,
) -> bool
    requires firsts { AreFirsts (tuned pi dwell) log.now (length log.now) firsts.now }
    requires none { lines.old ≡ [] }
    ensures { IsSure (tuned pi dwell) log.now found → IsAnswer (tuned pi dwell) log.now result lines.new }
{
    match found {
        Found::Doubt(burst, slot) => {
            push_mixes(log, firsts, pi, dwell, burst, slot, lines);
            if !lines.bytes().is_empty() {
                return true;
            }
            push_stopped(slot, lines);
        }
        Found::Nothing => lines.push(b"no witness found with one burst lost\n"),
        Found::Stopped(slot) => push_stopped(slot, lines),
    }
    false
}

/// Appends that no witness was found up to this slot.
fn push_stopped(slot: usize, lines: &mut Lines<ROOM>)
    requires { lines.old ≡ [] }
    ensures { lines.new ≡ no_witness_up_to slot }
{
    lines.push(b"no witness found with one burst lost up to slot ");
    lines.push_number(slot as u64);
    lines.push(b"\n");
}
