//! The events of a slot: a command and the receptions.
ghost use Rattle.std.specs.Prelude.{◌≡◌};
ghost use Rattle.rds_world.specs.declared.event.Reception.TheVariants as reception;

use arrayvec::ArrayVec;
use rds_assembly::{Name, Text};
use rds_fields::{Message, TagPair};
use std::marker::Model;

/// The most receivers of a world (this project's own rule).
pub const MOST_RECEIVERS: usize = 8;

/// The command that the encoder gets at the start of a slot. There is at most one.
#[derive(Clone, Copy)]
pub enum Command {
    /// No command.
    Quiet,
    /// Restarts the encoder, which is then silent for M + K slots.
    Restart,
    /// Sets a text.
    SetText(Text),
    /// Sets a name.
    SetName(Name),
    /// Sets a pair of tags for the text on air.
    SetTags(TagPair),
}

/// What a receiver gets in a slot.
#[derive(Clone, Copy)]
pub enum Reception {
    /// Nothing. It comes first, so that an empty list of receptions is made by zeros.
    Lost,
    /// The group that was sent this many slots before, or nothing if none was sent.
    Got(u16),
    /// A wrong group of the programme, which spells this message.
    Wrong(Message),
    /// A new receiver in its place, which gets nothing in this slot.
    Restart,
}

/// Gives `Lost`: by default a receiver gets nothing.
impl Default for Reception {
    ghost is_default = { λ r. r ≡ reception.Lost };

    fn default() -> Reception {
        Reception::Lost
    }
}

/// One slot: a command, whether the slot is free (the text services may use it), and what each receiver gets.
#[derive(Drop)]
pub struct SlotEvent {
    pub command: Command,
    pub free: bool,
    pub receptions: ArrayVec<Reception, MOST_RECEIVERS>,
}

impl Model for SlotEvent {
    ghost use Rattle.rds_world.specs.Event.{Event};

    ghost Value = { Event };

    ghost view = { λ e. record {
      command = e.command;
      free = e.free;
      receptions = e.receptions.items;
    } };

    ghost inverse = { λ v. record {
      command = v.command;
      free = v.free;
      receptions = record { items = v.receptions };
    } };
}
