//! The world: a station and its receivers, slot by slot.
ghost use Rattle.std.specs.Prelude.{◌≡◌, ◌≢◌, ◌+◌, ◌<◌, ◌≤◌, ◌↔◌, [], ◌∷◌, ℕ, IsErrOf, IsFalse, IsOk, IsSome, IfOk};
ghost use Rattle.std.specs.Prelude.{IfSome, MatchResult, OnErr, OnOk, length, slice_get, option_copied};
ghost use Rattle.rds_assembly.specs.Value.{IsName, IsText};
ghost use Rattle.rds_encoder.specs.Sent.{IsSent};
ghost use Rattle.rds_receiver.specs.Shown.{ShownView};
ghost use Rattle.rds_world.specs.OnAir.{name_on_air, tags_on_air, text_on_air};
ghost use Rattle.rds_world.specs.Replies.{CanBeTaken, IsStepRefused, reply_at};
ghost use Rattle.rds_world.specs.SafeSlots.{OnlyWhatWasOnAirIsShown};
ghost use Rattle.rds_world.specs.Slots.{entries, input_of, sent_at};
ghost use Rattle.rds_world.specs.State.{distance};
ghost use Rattle.rds_world.specs.WorldAt.{HasHeard, IsViewOfInput, ReceiverShows, ShowsStill, WorldAt};
ghost use Rattle.rds_world.specs.WorldAt.{WhereWorldStands};
ghost use Rattle.rds_world.specs.declared.event.TheConstants.{MOST_RECEIVERS};

use crate::past::{Past, check_wrong, new_pasts, note_wrong};
use crate::reach::{Reach, reaches_after};
use crate::receivers::{Changes, eight_receivers, hand_out_first};
use crate::recent::Recent;
use crate::station::{new_encoder, obey};
use crate::{
    Answer, MOST_RECEIVERS, ReceiverKind, SlotEvent, StepRefused, WorldRefused,
    only_what_was_on_air_is_shown,
};
use rds_block::Blocks;
use rds_encoder::Encoder;
use rds_fields::{Distance, Dwell, Head, Late, TagPair};
use rds_receiver::Receiver;
use std::alloc::Global;
use std::marker::Model;

/// The configuration of a world: the head of each group that the station sends, the dwell M of the receivers that it
/// serves, the lateness K of their groups, and which kind of receivers listens.
#[derive(Clone, Copy)]
pub struct Config {
    pub head: Head,
    pub dwell: Dwell,
    pub late: Late,
    pub kind: ReceiverKind,
}

impl Config {
    /// Returns the spacing d of the station: M + K slots, and M + K + W - 1 with a window of W slots.
    pub fn distance(&self) -> Distance
        ensures { result ≡ distance self.now }
    {
        let late = u32::from(self.kind.lateness(self.late));
        Distance::restore(u32::from(self.dwell.get()) + late)
    }
}

/// One encoder and up to eight receivers of its programme.
///
/// `WorldAt` relates a world to the list of its slots. A new world stands at the empty list, and each accepted `step`
/// adds its slot to the list.
#[derive(Drop)]
pub struct World {
    config: Config,
    encoder: Encoder,
    receivers: [Receiver; MOST_RECEIVERS],
    changes: Changes,
    reaches: [Reach; MOST_RECEIVERS],
    pasts: Vec<Past>,
    count: usize,
    recent: Recent,
}

impl Model for World {
    ghost use Rattle.std.specs.Prelude.{◌≡◌, ◌≤◌, ◌<◌, ◌+◌, ℕ, false, length, slice_index_or, take, true};
    ghost use Rattle.rds_world.specs.State.{WorldState};
    ghost use Rattle.rds_world.specs.declared.event.TheConstants.{MOST_RECEIVERS};

    ghost Value = { WorldState };

    ghost view = { λ w. record {
      config = w.config;
      encoder = w.encoder;
      receivers = take w.count w.receivers;
      changed = w.changes.each;
      reaches = take w.count w.reaches;
      pasts = w.pasts.items;
      sent = w.recent.items;
    } };

    ghost invariant = { λ w. (w.count ≤ MOST_RECEIVERS) × (length w.receivers ≡ MOST_RECEIVERS)
        × (length w.reaches ≡ MOST_RECEIVERS) × (w.recent.capacity ≡ w.config.late + 1)
        × (length w.pasts.items ≡ w.count)
        × (w.changes.any ≡ false → (i : ℕ) → i < w.count → slice_index_or w.changes.each i true ≡ false) };
}

impl World {
    /// Makes a world before its first slot: the encoder at a restart, and receivers that have heard nothing yet. Error
    /// if there are more than 8 receivers, or if out of memory. It allocates memory for the groups of K + 1 slots, and
    /// with a window of W slots for the wrong messages of W - 1 slots; no later call allocates.
    pub fn new(alloc: Global, config: Config, receivers: usize) -> Result<World, WorldRefused>
        ensures refused { IsErrOf result WorldRefused.TooManyReceivers ↔ (MOST_RECEIVERS < receivers) }
        ensures few { IsOk result → receivers ≤ MOST_RECEIVERS }
        ensures count { IfOk result (λ w. length w.receivers ≡ receivers) }
        ensures stands { IfOk result (λ w.
            WorldAt config w []) }
    {
        if receivers > MOST_RECEIVERS {
            return Err(WorldRefused::TooManyReceivers);
        }
        let Ok(recent) = Recent::new(alloc, config.late) else {
            return Err(WorldRefused::Memory);
        };
        let kind = config.kind;
        let Ok(pasts) = new_pasts(alloc, kind.window, receivers) else {
            return Err(WorldRefused::Memory);
        };
        Ok(World {
            config,
            encoder: new_encoder(&config),
            receivers: eight_receivers(&config),
            changes: Changes::all(),
            reaches: [Reach::new(); MOST_RECEIVERS],
            pasts,
            count: receivers,
            recent,
        })
    }

    /// Plays one slot: the command, then the encoder's part, then the receivers' part. If the encoder refuses the
    /// command, the answer says so and the slot goes on.
    ///
    /// # Errors
    ///
    /// [`StepRefused`] if the slot is refused; the world is then unchanged.
    pub fn step(&mut self, event: &SlotEvent) -> Result<Answer, StepRefused>
        ensures counted { IsErrOf result StepRefused.ReceiverCount
            ↔ (length event.now.receptions ≢ length self.old.receivers) }
        ensures refused { WhereWorldStands self.old (λ config events. MatchResult result
            (λ _. CanBeTaken config (length self.old.receivers) event.now events)
            (IsStepRefused config (length self.old.receivers) event.now events)) }
        ensures kept { OnErr result (self.new ≡ self.old) }
        ensures count { length self.new.receivers ≡ length self.old.receivers }
        ensures reply { WhereWorldStands self.old (λ config events. IfOk result (λ answer.
            answer.reply ≡ reply_at (distance config) event.now.command (entries events))) }
        ensures sent { WhereWorldStands self.old (λ config events. IfOk result (λ answer.
            IsSent config.head (sent_at (distance config) event.now events) answer.sent)) }
        ensures stands { WhereWorldStands self.old (λ config events.
            OnOk result (WorldAt config self.new (event.now ∷ events))) }
        ensures safe { WhereWorldStands self.old (λ config events.
            OnOk result (OnlyWhatWasOnAirIsShown config (event.now ∷ events) self.new.receivers)) }
    {
        // Prover: a call of a law, which gives the clause `safe` (PROVER.md, "Idioms").
        only_what_was_on_air_is_shown();
        let receptions = event.receptions.as_slice();
        if receptions.len() != self.count {
            return Err(StepRefused::ReceiverCount);
        }
        let reaches = match reaches_after(&self.reaches[..self.count], self.config.late, event) {
            Ok(reaches) => reaches,
            Err(receiver) => return Err(StepRefused::Late(receiver)),
        };
        check_wrong(self.pasts.as_slice(), self.config.kind.window, event)?;
        let reply = obey(&mut self.encoder, &self.config, &event.command);
        let sent = self.encoder.tick(event.free);
        // Prover: a `Copy` value is copied by a new name before its second use (PROVER.md, "Workarounds").
        let handed = sent;
        self.recent.push(Blocks::of_slot(handed));
        self.changes = hand_out_first(
            &mut self.receivers,
            self.count,
            &self.config,
            receptions,
            &self.recent,
        );
        self.reaches = reaches;
        note_wrong(self.pasts.as_mut_slice(), self.config.kind.window, event);
        Ok(Answer { reply, sent })
    }

    /// Returns the text and the name on air, borrowed from the encoder. `None` for each of them that is not on air.
    pub fn on_air(&self) -> (Option<&[u8]>, Option<&[u8]>)
        ensures text { WhereWorldStands self.now (λ config events.
            option_copied result.0 ≡ text_on_air config events) }
        ensures name { WhereWorldStands self.now (λ config events.
            option_copied result.1 ≡ name_on_air config events) }
        ensures is_text { WhereWorldStands self.now (λ _ _. IfSome result.0 (λ x. IsText x.now)) }
        ensures is_name { WhereWorldStands self.now (λ _ _. IfSome result.1 (λ x. IsName x.now)) }
        ensures short_text { IfSome result.0 (λ x. length x.now ≤ 64) }
        ensures short_name { IfSome result.1 (λ x. length x.now ≡ 8) }
    {
        (self.encoder.text(), self.encoder.name())
    }

    /// Returns the tags of the text on air, even if they have not been sent yet. `None` if it has none.
    pub fn tags_on_air(&self) -> Option<TagPair>
        ensures { WhereWorldStands self.now (λ config events. result ≡ tags_on_air config events) }
    {
        self.encoder.tags()
    }

    /// Returns receiver i, counted from 0, borrowed from the world. `None` if there are no more than i receivers.
    pub fn receiver(&self, i: usize) -> Option<&Receiver>
        ensures there { IsSome result ↔ (i < length self.now.receivers) }
        ensures same { option_copied result ≡ slice_get self.now.receivers i }
        ensures heard { WhereWorldStands self.now (λ config events.
            IfSome result (λ r. HasHeard config (input_of (distance config) i events) r.now)) }
        ensures shows { WhereWorldStands self.now (λ config events.
            IfSome result (λ r. (view : ShownView) → ReceiverShows r.now view
            → IsViewOfInput config (input_of (distance config) i events) view)) }
    {
        self.receivers[..self.count].get(i)
    }

    /// Returns false only if the last slot was no restart of receiver i, and changed nothing that it shows.
    pub fn changed(&self, i: usize) -> bool
        ensures { IsFalse result → WhereWorldStands self.now
            (λ config events. ShowsStill config i events) }
    {
        match self.changes.each.get(i) {
            Some(changed) => *changed,
            None => true,
        }
    }

    /// Returns false only if the last slot restarted no receiver, and changed nothing that any of them shows.
    pub fn any_changed(&self) -> bool
        ensures { IsFalse result → WhereWorldStands self.now (λ config events.
            (i : ℕ) → i < length self.now.receivers → ShowsStill config i events) }
    {
        self.changes.any
    }
}
