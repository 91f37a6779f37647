//! A world, and the changes of its receivers' views.
ghost use Rattle.std.specs.Prelude.{◌≡◌, ◌≤◌, ◌<◌, ◌+◌, ◌*◌, ◌++◌, ◌∷◌, [], ℕ, IfErr, IfOk, OnErr, OnOk, length, map};
ghost use Rattle.std.specs.Prelude.{List, Option, false, slice_index_or, true};
ghost use Rattle.rds_fields.specs.declared.message.Message.{Message};
ghost use Rattle.rds_receiver.specs.Counts.{DisplayOf};
ghost use Rattle.rds_receiver.specs.Shown.{ShownView};
ghost use Rattle.rds_view_lines.specs.Output.{change, receiver_prefix};
ghost use Rattle.rds_world.specs.Event.{Event};
ghost use Rattle.rds_world.specs.Slots.{received};
ghost use Rattle.rds_world.specs.WorldAt.{StaysShown, WorldAt};
ghost use Rattle.rds_safety.specs.Late.{Input};
ghost use Rattle.rds_world.specs.declared.event.Reception.TheVariants.{Lost};
ghost use Rattle.rds_world.specs.declared.event.TheConstants.{MOST_RECEIVERS};
ghost use Rattle.rds_world.specs.declared.world.Config.{Config};
ghost use Rattle.rds_world.specs.State.{distance};
ghost use Rattle.rds_world.specs.Slots.{input_of};
ghost use Rattle.rds_world.specs.Replies.{CanBeTaken, IsStepRefused};
ghost use Rattle.rds_world.specs.WorldAt.{HasHeard, IsViewOfInput, WhereWorldStands, tuned_to};
ghost use Rattle.rds_view_lines.specs.KeptView.{view_shown};
ghost use Rattle.rds_script.specs.Inside.Compared.{HasRoom};
ghost use Rattle.rds_script.specs.Inside.Watched.{AreDisplays, AreKept, DisplaysNext, IsDisplayAt};
ghost use Rattle.rds_script.specs.Outcomes.{IsOutcome, Outcome, compared_lines, receiver_changes, slot_lines, view_at};
ghost use Rattle.rds_script.specs.Outcomes.{whys_after, whys_at, whys_said};
ghost use Rattle.rds_script.specs.declared.row.RowRefused.TheVariants as refused;
ghost use Rattle.rds_script.specs.declared.watched.TheConstants.{OUTPUT_ROOM, ROW_ROOM};
ghost use Rattle.rds_view_lines.specs.declared.change.TheConstants.{SLOT_ROOM};

use crate::answer_lines::{ANSWER_ROOM, push_answer};
use crate::compared::{COMPARED_ROOM, Compared, compare, make_room, new_compared};
use crate::form::Form;
use crate::notes::{EarlySet, note_wait};
use crate::row::RowRefused;
use arrayvec::ArrayVec;
use rds_io::Lines;
use rds_receiver::{Keeping, Kept, NOTHING_KEPT, Receiver, WhyNone, Whys};
use rds_view_lines::{Prefix, SLOT_ROOM, Shown, show};
use rds_world::{Config, MOST_RECEIVERS, Reception, SlotEvent, StepRefused, World};
use std::alloc::Global;

/// The most bytes of the output of a row: the reply, the group, the changes at each receiver, and how the views compare
/// with what was on air.
pub(crate) const ROW_ROOM: usize = MOST_RECEIVERS * SLOT_ROOM + ANSWER_ROOM + COMPARED_ROOM;

/// The most bytes of output that wait to be written.
pub(crate) const OUTPUT_ROOM: usize = 65536;

/// The output of rows that waits to be written.
pub(crate) type RowLines = Lines<OUTPUT_ROOM>;

/// A world, and the display of each of its receivers at the end of the last slot. The views of radios with the flag bit
/// alone are compared with what was on air.
#[derive(Drop)]
pub(crate) struct Watched {
    world: World,
    /// For how many slots the displays keep a text and a name.
    keep: u16,
    shown: ArrayVec<Shown, MOST_RECEIVERS>,
    compared: Option<Compared>,
}

impl Watched {
    ghost use Rattle.rds_script.specs.Inside.Watched.{WatchedStandsAt, WhereWatchedStands, views_kept};

    /// Makes a world with this many receivers, before its first slot. Their displays keep a text and a name for `keep`
    /// slots.
    pub(crate) fn new(
        alloc: Global,
        config: Config,
        receivers: usize,
        keep: u16,
    ) -> Result<Watched, RowRefused>
        requires few { receivers ≤ MOST_RECEIVERS }
        requires plain { config.kind.is_flag_alone ≡ true → keep ≡ 0 }
        ensures stands { IfOk result (λ w. WatchedStandsAt config receivers w []) }
        ensures keep { IfOk result (λ w. w.keep ≡ keep) }
        ensures nothing { IfOk result (λ w. AreKept (views_kept w) []) }
        ensures room { IfOk result (λ w. HasRoom w.compared) }
        ensures memory { IfErr result (λ why. why ≡ refused.Memory) }
    {
        let Ok(compared) = new_compared(alloc, &config, receivers) else {
            return Err(RowRefused::Memory);
        };
        match World::new(alloc, config, receivers) {
            Ok(world) => Ok(Watched {
                world,
                keep,
                shown: nothing_shown(receivers, keep),
                compared,
            }),
            Err(_) => Err(RowRefused::Memory),
        }
    }

    /// Takes memory for one more slot.
    ///
    /// # Errors
    ///
    /// `Memory`: only for radios with the flag bit alone.
    #[inline(always)]
    pub(crate) fn make_room(&mut self) -> Result<(), RowRefused>
        ensures room { OnOk result (HasRoom self.new.compared) }
        ensures stands { WhereWatchedStands self.old (λ config receivers events.
            WatchedStandsAt config receivers self.new events) }
        ensures views { views_kept self.new ≡ views_kept self.old }
        ensures keep { self.new.keep ≡ self.old.keep }
        ensures memory { IfErr result (λ why. (why ≡ refused.Memory)
            × WhereWatchedStands self.old (λ config _ _. config.kind.is_flag_alone ≡ true)) }
    {
        match make_room(&mut self.compared) {
            Ok(()) => Ok(()),
            Err(_) => Err(RowRefused::Memory),
        }
    }

    /// Plays the slot of an event, and appends its lines. Notes the first thing that was set too early.
    pub(crate) fn play(
        &mut self,
        form: &Form,
        slot: u64,
        event: &SlotEvent,
        lines: &mut RowLines,
        wait: &mut Option<EarlySet>,
    ) -> Result<(), StepRefused>
        requires memory { HasRoom self.old.compared }
        requires room { length lines.old + ROW_ROOM ≤ OUTPUT_ROOM }
        ensures stands { WhereWatchedStands self.old (λ config receivers events.
            OnOk result (WatchedStandsAt config receivers self.new (event.now ∷ events))) }
        ensures taken { WhereWatchedStands self.old (λ config receivers events.
            OnOk result (CanBeTaken config receivers event.now events)) }
        ensures outcome { WhereWatchedStands self.old (λ config receivers events.
            OnOk result ((o : Outcome) × IsOutcome self.old.keep config event.now events o
            × (o.views ≡ views_kept self.new)
            × (lines.new ≡ lines.old ++ (slot_lines form.now config slot event.now events (views_kept self.old) o
            ++ compared_lines config slot (length o.views) event.now events (views_kept self.old) o.views)))) }
        ensures refused { WhereWatchedStands self.old (λ config receivers events.
            IfErr result (IsStepRefused config receivers event.now events)) }
        ensures keep { self.new.keep ≡ self.old.keep }
        ensures kept { OnErr result (self.new ≡ self.old) }
        ensures no_lines { OnErr result (lines.new ≡ lines.old) }
    {
        match self.world.step(event) {
            Ok(answer) => {
                note_wait(wait, slot, &event.command, answer.reply);
                push_answer(form, slot, &event.command, answer, lines);
                push_views(
                    form,
                    slot,
                    &self.world,
                    event,
                    self.keep,
                    self.shown.as_mut_slice(),
                    lines,
                );
                compare(
                    &mut self.compared,
                    slot,
                    &self.world,
                    self.shown.as_slice(),
                    lines,
                );
                Ok(())
            }
            Err(why) => Err(why),
        }
    }

    /// Returns the number of receivers.
    pub(crate) fn receivers(&self) -> usize
        ensures { WhereWatchedStands self.now (λ _ receivers _. result ≡ receivers) }
    {
        self.shown.len()
    }
}

/// Returns the displays of this many receivers that show nothing. They keep a text and a name for `keep` slots.
fn nothing_shown(receivers: usize, keep: u16) -> ArrayVec<Shown, MOST_RECEIVERS>
    requires { receivers ≤ MOST_RECEIVERS }
    ensures displays { (config : Config) → AreDisplays keep config [] result.items }
    ensures nothing { AreKept (map view_shown result.items) [] }
    ensures count { length result.items ≡ receivers }
{
    let mut shown = ArrayVec::new();
    for _ in 0..receivers {
        shown.push(Shown::new(keep));
    }
    shown
}

/// Ends a slot of each display, and appends what changes on it. In most slots nothing does. A display that keeps nothing
/// changes only if its receiver's view may have changed.
fn push_views(
    form: &Form,
    slot: u64,
    world: &World,
    event: &SlotEvent,
    keep: u16,
    shown: &mut [Shown],
    lines: &mut RowLines,
)
    requires few { length shown.old ≤ MOST_RECEIVERS }
    requires room { length lines.old + MOST_RECEIVERS * SLOT_ROOM ≤ OUTPUT_ROOM }
    ensures lines { length shown.old ≡ length world.now.receivers
        → WhereWorldStands world.now (λ config events. lines.new ≡ lines.old ++ receiver_changes slot (length shown.old)
        (whys_at form.now config event.now.receptions events) (map view_shown shown.old) (map view_shown shown.new)) }
    ensures displays { length shown.old ≡ length world.now.receivers → (config : Config) (before : List Event)
        → WorldAt config world.now (event.now ∷ before) → AreDisplays keep config before shown.old
        → AreDisplays keep config (event.now ∷ before) shown.new }
    ensures count { length shown.new ≡ length shown.old }
    ensures room { length lines.new ≤ length lines.old + MOST_RECEIVERS * SLOT_ROOM }
{
    if keep == 0 && !world.any_changed() {
        return;
    }
    for i in 0..shown.len() {
        if keep == 0 && !world.changed(i) {
            continue;
        }
        push_view(form, slot, world, event, i, &mut shown[i], lines);
    }
}

/// Ends a slot of the display of receiver i, and appends what changes on it.
fn push_view(
    form: &Form,
    slot: u64,
    world: &World,
    event: &SlotEvent,
    i: usize,
    shown: &mut Shown,
    lines: &mut RowLines,
)
    requires { length lines.old + SLOT_ROOM ≤ OUTPUT_ROOM }
    ensures changes { i < length world.now.receivers → WhereWorldStands world.now (λ config events.
        lines.new ≡ lines.old ++ change (receiver_prefix slot i)
        (whys_at form.now config event.now.receptions events i) (view_shown shown.old) (view_shown shown.new)) }
    ensures display { i < length world.now.receivers → (n : ℕ) (config : Config) (before : List Event)
        → WorldAt config world.now (event.now ∷ before)
        → IsDisplayAt n config (input_of (distance config) i before) shown.old
        → IsDisplayAt n config (input_of (distance config) i (event.now ∷ before)) shown.new }
    ensures room { length lines.new ≤ length lines.old + SLOT_ROOM }
{
    let Some(receiver) = world.receiver(i) else {
        return;
    };
    let reception = reception_of(event, i);
    let Some(kept) = end_slot(&mut shown.keeping, reception, receiver, world.changed(i)) else {
        return;
    };
    let whys = whys_of(form, event, i, receiver);
    show(
        Prefix::Receiver(slot, i),
        whys,
        kept,
        &mut shown.view,
        receiver,
        lines,
    );
}

/// Ends a slot of what a display counts. A restart of the receiver starts the display anew. Returns which parts the
/// display keeps, or `None` if nothing changes that it shows.
fn end_slot(
    keeping: &mut Keeping,
    reception: Reception,
    receiver: &Receiver,
    is_changed: bool,
) -> Option<Kept>
    ensures { (n : ℕ) (config : Config) (slot : ℕ) (sent : List (Option Message)) (input : Input) (view : ShownView)
        → HasHeard config (received reception slot sent input) receiver.now
        → (is_changed ≡ false → StaysShown config input (received reception slot sent input))
        → DisplayOf n (tuned_to config input) keeping.old view input.heard
        → DisplaysNext n config (received reception slot sent input) keeping.new view result }
{
    match reception {
        Reception::Restart => {
            *keeping = Keeping::new(keeping.keep);
            Some(NOTHING_KEPT)
        }
        Reception::Got(_) | Reception::Lost | Reception::Wrong(_) => {
            keeping.slot(receiver, is_changed)
        }
    }
}

/// Returns why receiver i shows no text and no name after the slot of this event, if the lines say why.
fn whys_of(form: &Form, event: &SlotEvent, i: usize, receiver: &Receiver) -> Option<Whys>
    ensures { (config : Config) (input : Input) → HasHeard config input receiver.now
        → result ≡ whys_said form.now (slice_index_or event.now.receptions i Lost) config input }
{
    match form {
        Form::Simulation { says_why: true, .. } => Some(whys_after(
            reception_of(event, i),
            receiver,
        )),
        Form::Simulation {
            says_why: false,
            ..
        }
        | Form::Log { .. } => None,
    }
}

/// Returns why a receiver shows no text and no name after a slot with this reception.
fn whys_after(reception: Reception, receiver: &Receiver) -> Whys
    ensures { (config : Config) (input : Input) → HasHeard config input receiver.now
        → result ≡ whys_after reception (tuned_to config input) input.heard }
{
    match reception {
        Reception::Restart => Whys {
            text: WhyNone::Restarted,
            name: WhyNone::Restarted,
        },
        Reception::Got(_) | Reception::Lost | Reception::Wrong(_) => receiver.whys(),
    }
}

/// Returns the reception of receiver i.
fn reception_of(event: &SlotEvent, i: usize) -> Reception
    ensures { result ≡ slice_index_or event.now.receptions i Lost }
{
    match event.receptions.as_slice().get(i) {
        Some(reception) => *reception,
        None => Reception::Lost,
    }
}
