//! A station that plays the rows of a script.
ghost use Rattle.std.specs.Prelude.{◌≡◌, ◌<◌, ◌≤◌, ◌+◌, ◌-◌, ◌^◌, IfErr, None, OnErr, OnOk, Some, length};
ghost use Rattle.csv.specs.Records.{fields_of};
ghost use Rattle.rds_world.specs.declared.event.TheConstants.{MOST_RECEIVERS};
ghost use Rattle.rds_script.specs.declared.row.RowRefused.TheVariants as refused;
ghost use Rattle.rds_script.specs.declared.watched.TheConstants.{OUTPUT_ROOM, ROW_ROOM};
ghost use Rattle.rds_script.specs.declared.watched.Watched.{Watched};

use crate::causes::refused_cause;
use crate::form::Form;
use crate::notes::EarlySet;
use crate::row::{RowRefused, read_event};
use crate::row_cause::{ReceptionsCause, RowCause};
use crate::watched::{RowLines, Watched};
use arrayvec::ArrayVec;
use csv::ByteRecord;
use rds_charset::text_is_read_one_way;
use rds_world::{Command, Config, SlotEvent};
use std::alloc::Global;

/// Plays the rows of a script, and returns the lines of each slot. The first row fixes the number of receivers.
#[derive(Drop)]
pub(crate) struct Player {
    alloc: Global,
    form: Form,
    config: Config,
    watched: Option<Watched>,
    pub(crate) slot: u64,
    /// The first thing that was set too early. `None` if nothing was.
    pub(crate) wait: Option<EarlySet>,
}

impl Player {
    ghost use Rattle.rds_script.specs.Inside.Player.{IsBegun, IsFirstOrAlone, IsRowRefused, PlayerStandsAt};
    ghost use Rattle.rds_script.specs.Outcomes.{keep_of};
    ghost use Rattle.rds_script.specs.Play.{with_form};
    ghost use Rattle.rds_script.specs.Inside.Player.{AppendsRow, WherePlayerStands, nothing_played};

    /// Starts before the first row, without a world.
    pub(crate) fn new(alloc: Global, form: Form, config: Config) -> Player
        ensures slot { result.slot ≡ 0 }
        ensures stands { PlayerStandsAt result (nothing_played (with_form form config)) }
    {
        Player {
            alloc,
            form,
            config,
            watched: None,
            slot: 0,
            wait: None,
        }
    }

    /// Plays one more record, and appends the lines of its slot.
    pub(crate) fn row(&mut self, row: &ByteRecord, lines: &mut RowLines) -> Result<(), RowRefused>
        requires slots { self.old.slot < 2 ^ 64 - 1 }
        requires room { length lines.old + ROW_ROOM ≤ OUTPUT_ROOM }
        ensures slot { OnOk result (self.new.slot ≡ self.old.slot + 1) }
        ensures stands { WherePlayerStands self.old (λ played.
            OnOk result (AppendsRow self.new (fields_of row.now) lines.old lines.new played)) }
        ensures refused { WherePlayerStands self.old (λ played.
            IfErr result (IsRowRefused played (fields_of row.now))) }
        ensures no_lines { OnErr result (lines.new ≡ lines.old) }
    {
        // A record is one event: this law is used below.
        text_is_read_one_way();
        let mut event = SlotEvent {
            command: Command::Quiet,
            free: false,
            receptions: ArrayVec::new(),
        };
        if let Err(cause) = read_event(row, &mut event) {
            return Err(RowRefused::NoRow(cause));
        }
        let receivers = event.receptions.len();
        if !self.form.allows(receivers) {
            let cause = RowCause::Receptions(ReceptionsCause::EncodeTakesNone);
            return Err(RowRefused::NoRow(cause));
        }
        self.begin(receivers)?;
        match &mut self.watched {
            Some(watched) => {
                let slot = self.slot;
                self.slot += 1;
                match watched.play(&self.form, slot, &event, lines, &mut self.wait) {
                    Ok(()) => Ok(()),
                    Err(why) => Err(RowRefused::NoRow(refused_cause(
                        why,
                        self.config.late,
                        slot,
                        watched.receivers(),
                        &event,
                    ))),
                }
            }
            None => unreachable!(),
        }
    }

    /// Makes the world with this many receivers if there is none yet, and takes memory for one more slot.
    fn begin(&mut self, receivers: usize) -> Result<(), RowRefused>
        requires few { receivers ≤ MOST_RECEIVERS }
        ensures begins { OnOk result ((w : Watched) × (self.new ≡ record self.old { watched = Some w })
            × IsBegun (keep_of self.old.form self.old.config) self.old.config receivers self.old.watched w) }
        ensures memory { IfErr result (λ why. (why ≡ refused.Memory) × IsFirstOrAlone self.old.watched) }
    {
        match &mut self.watched {
            Some(watched) => watched.make_room(),
            None => self.make_world(receivers),
        }
    }

    /// Makes the world of the first row.
    // Cold path.
    #[inline(never)]
    fn make_world(&mut self, receivers: usize) -> Result<(), RowRefused>
        requires few { receivers ≤ MOST_RECEIVERS }
        ensures made { OnOk result ((w : Watched) × (self.new ≡ record self.old { watched = Some w })
            × IsBegun (keep_of self.old.form self.old.config) self.old.config receivers None w) }
        ensures memory { IfErr result (λ why. why ≡ refused.Memory) }
        ensures kept { OnErr result (self.new ≡ self.old) }
    {
        let keep = self.form.keep(&self.config);
        self.watched = Some(Watched::new(self.alloc, self.config, receivers, keep)?);
        Ok(())
    }
}
