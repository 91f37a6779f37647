//! The engines of `sim` and `encode`: each row is a slot of a station.
ghost use Rattle.std.specs.Prelude.{◌≡◌, ◌≢◌, ◌≤◌, ◌<◌, ◌+◌, ◌-◌, ◌^◌, [], ℕ, Bool, List, None, Ok, Option, Result};
ghost use Rattle.std.specs.Prelude.{false, length, true};
ghost use Rattle.csv.specs.Records.{fields_of};
ghost use Rattle.rds_io.specs.Told.{traffic};
ghost use Rattle.rds_io.specs.ReadFailed.{SomeReadFailed};
ghost use Rattle.rds_script.specs.Inside.Player.{Played, PlayerStandsAt, PlaysNext, ScriptStandsAt, nothing_played};
ghost use Rattle.rds_script.specs.Play.{Plays, reading, with_form};
ghost use Rattle.rds_script.specs.declared.form.Form.TheVariants as forms;
ghost use Rattle.rds_script.specs.declared.watched.TheConstants.{OUTPUT_ROOM, ROW_ROOM};

use crate::causes::row_cause;
use crate::form::Form;
use crate::notes::{BadRow, ScriptNotes};
use crate::player::Player;
use crate::records::Records;
use crate::row::RowRefused;
use crate::watched::{ROW_ROOM, RowLines};
use csv::ByteRecord;
use rds_fields::TagGroup;
use rds_io::{LogFault, TellingRead, TellingWrite};
use rds_world::Config;
use std::alloc::Global;

/// How a script is played.
#[derive(Clone, Copy)]
pub struct Playing {
    /// What is written for its slots.
    pub form: Form,
    /// The station, and which receivers hear it.
    pub config: Config,
}

/// The most records of a script. A script with as many is too long.
pub const MOST_RECORDS: u64 = 1 << 32;

/// Plays a script with a station, which sends its tags in groups 11A, and up to eight receivers. Writes for each slot
/// the reply to its command, the group, and the changes at each receiver.
///
/// The output of the rows of one read is written before the next read, in one write if the writer takes it whole. A row
/// that the read cuts belongs to the next read.
///
/// # Errors
///
/// The first fault: a record that is not a row, a failed read or write, no memory for the world, for a record or for
/// what was on air, or 2^32 records, whether or not the script ends there.
pub fn simulate<R: TellingRead + Drop, W: TellingWrite>(
    alloc: Global,
    reader: R,
    writer: &mut W,
    config: Config,
) -> Result<(), LogFault>
    ensures { Plays (with_form (forms.Simulation false 11 0) config) (2 ^ 32) (reading R.remaining R.failures reader)
        (traffic W.contents W.failures writer.old writer.new) result }
{
    simulate_within(alloc, reader, writer, config, MOST_RECORDS)
}

/// Does what [`simulate`] does with a bound on records: a script with as many is too long, whether or not it ends
/// there.
pub fn simulate_within<R: TellingRead + Drop, W: TellingWrite>(
    alloc: Global,
    reader: R,
    writer: &mut W,
    config: Config,
    records: u64,
) -> Result<(), LogFault>
    requires { records ≤ 2 ^ 32 }
    ensures { Plays (with_form (forms.Simulation false 11 0) config) records (reading R.remaining R.failures reader)
        (traffic W.contents W.failures writer.old writer.new) result }
{
    let form = Form::Simulation {
        says_why: false,
        rtplus: TagGroup::usual(),
        keep: 0,
    };
    play_without_notes(form, alloc, reader, writer, config, records)
}

/// Plays a script with a station alone, and writes the station's log: for each slot the reply to its command as a
/// comment, and the group, or four missing blocks if there is no group.
///
/// # Errors
///
/// As for [`simulate`].
pub fn encode<R: TellingRead + Drop, W: TellingWrite>(
    alloc: Global,
    reader: R,
    writer: &mut W,
    config: Config,
) -> Result<(), LogFault>
    ensures { Plays (with_form (forms.Log 11) config) (2 ^ 32) (reading R.remaining R.failures reader)
        (traffic W.contents W.failures writer.old writer.new) result }
{
    encode_within(alloc, reader, writer, config, MOST_RECORDS)
}

/// Does what [`encode`] does with a bound on records: a script with as many is too long, whether or not it ends there.
pub fn encode_within<R: TellingRead + Drop, W: TellingWrite>(
    alloc: Global,
    reader: R,
    writer: &mut W,
    config: Config,
    records: u64,
) -> Result<(), LogFault>
    requires { records ≤ 2 ^ 32 }
    ensures { Plays (with_form (forms.Log 11) config) records (reading R.remaining R.failures reader)
        (traffic W.contents W.failures writer.old writer.new) result }
{
    let form = Form::Log {
        rtplus: TagGroup::usual(),
    };
    play_without_notes(form, alloc, reader, writer, config, records)
}

/// Plays a script in this form with a bound on records, and takes no notes.
fn play_without_notes<R: TellingRead + Drop, W: TellingWrite>(
    form: Form,
    alloc: Global,
    reader: R,
    writer: &mut W,
    config: Config,
    records: u64,
) -> Result<(), LogFault>
    requires { records ≤ 2 ^ 32 }
    ensures { Plays (with_form form config) records (reading R.remaining R.failures reader)
        (traffic W.contents W.failures writer.old writer.new) result }
{
    let playing = Playing { form, config };
    play_script(
        playing,
        alloc,
        reader,
        writer,
        records,
        &mut ScriptNotes::new(),
    )
}

/// Plays a script in this way with a bound on records, and takes notes: why a record is not a row, and the
/// first thing that was set too early. [`simulate`] and [`encode`] are its two forms.
///
/// The new notes replace the old content of `notes`.
///
/// # Errors
///
/// As for [`simulate`]. A script with `records` records is too long, whether or not it ends there.
pub fn play_script<R: TellingRead + Drop, W: TellingWrite>(
    playing: Playing,
    alloc: Global,
    reader: R,
    writer: &mut W,
    records: u64,
    notes: &mut ScriptNotes,
) -> Result<(), LogFault>
    requires { records ≤ 2 ^ 32 }
    ensures { Plays playing records (reading R.remaining R.failures reader)
        (traffic W.contents W.failures writer.old writer.new) result }
{
    let mut script = Records::new(alloc, reader);
    let mut player = Player::new(alloc, playing.form, playing.config);
    let mut row = ByteRecord::new(alloc);
    let mut bad = None;
    let done = play_rows(
        &mut script,
        &mut player,
        &mut row,
        writer,
        records,
        &mut bad,
    );
    *notes = ScriptNotes {
        has_row: player.slot > 0,
        bad,
        wait: player.wait,
    };
    done
}

/// Plays row by row. Writes the output before a read, and if there may be no room for the output of one more row.
///
/// Prover: the caller owns the values that must be dropped, since it has one end (PROVER.md, "Workarounds").
fn play_rows<R: TellingRead, W: TellingWrite>(
    script: &mut Records<R>,
    player: &mut Player,
    row: &mut ByteRecord,
    writer: &mut W,
    records: u64,
    bad: &mut Option<BadRow>,
) -> Result<(), LogFault>
    requires bound { records ≤ 2 ^ 32 }
    requires first { player.old.slot ≡ 0 }
    ensures { (how : Playing) (known : Option (List ℕ))
        → PlayerStandsAt player.old (nothing_played how) → ScriptStandsAt R.remaining known script.old []
        → Plays how records (record { known = known; Failed = SomeReadFailed R.failures })
        (traffic W.contents W.failures writer.old writer.new) result }
{
    let mut lines = RowLines::new();
    for turn in 0..records {
        match play_next(script, player, row, turn + 1, &mut lines, bad) {
            Ok(true) => {}
            Ok(false) => {
                lines.write(writer)?;
                return Ok(());
            }
            Err(fault) => {
                lines.write(writer)?;
                return Err(fault);
            }
        }
        if !script.has_next() || !lines.has_room(ROW_ROOM) {
            lines.write(writer)?;
        }
    }
    lines.write(writer)?;
    Err(LogFault::TooLong)
}

/// Reads the next record, which has this number, and plays it. Appends its output. Returns `false` at the end of the
/// script.
///
/// # Errors
///
/// A record that is not a row, whose cause is noted, a failed read, or no memory.
fn play_next<R: TellingRead>(
    script: &mut Records<R>,
    player: &mut Player,
    row: &mut ByteRecord,
    number: u64,
    lines: &mut RowLines,
    bad: &mut Option<BadRow>,
) -> Result<bool, LogFault>
    requires slots { player.old.slot < 2 ^ 64 - 1 }
    requires room { length lines.old + ROW_ROOM ≤ OUTPUT_ROOM }
    ensures slot { result ≡ Ok true → player.new.slot ≡ player.old.slot + 1 }
    ensures no_lines { result ≢ Ok true → lines.new ≡ lines.old }
    ensures plays { (known : Option (List ℕ)) (played : Played)
        → ScriptStandsAt R.remaining known script.old played.records → PlayerStandsAt player.old played
        → PlaysNext R.remaining (SomeReadFailed R.failures) known script.new player.new (fields_of row.new) number
        lines.old lines.new played result }
{
    if !script.next(row)? {
        return Ok(false);
    }
    match player.row(row, lines) {
        Ok(()) => Ok(true),
        Err(RowRefused::NoRow(cause)) => {
            *bad = Some(BadRow {
                line: script.line_of(row),
                cause: row_cause(row, cause),
            });
            Err(LogFault::BadRow(number))
        }
        Err(RowRefused::Memory) => Err(LogFault::Memory),
    }
}
