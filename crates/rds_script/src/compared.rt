//! Whether what radios with the flag bit alone show was on air.
ghost use Rattle.std.specs.Prelude.{◌≡◌, ◌≤◌, ◌<◌, ◌+◌, ◌*◌, ◌++◌, [], ℕ, IfOk, List, OnErr, OnOk, length, map, true};
ghost use Rattle.rds_receiver.specs.Shown.{ShownView};
ghost use Rattle.rds_view_lines.specs.KeptView.{view_shown};
ghost use Rattle.rds_view_lines.specs.Output.{nothing_shown as none_shown};
ghost use Rattle.rds_view_lines.specs.Part.{prefix_of};
ghost use Rattle.rds_view_lines.specs.declared.change.TheConstants.{SLOT_ROOM};
ghost use Rattle.rds_world.specs.WorldAt.{WhereWorldStands};
ghost use Rattle.rds_world.specs.declared.event.TheConstants.{MOST_RECEIVERS};
ghost use Rattle.rds_world.specs.Event.{Event};
ghost use Rattle.rds_world.specs.declared.world.Config.{Config};
ghost use Rattle.rds_script.specs.Inside.Compared.{AirsHaveRoom, AirsStand, Compares, GoesOnCompared, HasRoom};
ghost use Rattle.rds_script.specs.Inside.Compared.{IsCompared, WereKept, airings_at, all_on_air};
ghost use Rattle.rds_script.specs.OnAir.{airings};
ghost use Rattle.rds_script.specs.Outcomes.{airing_change, airing_word, airings_change, airings_changes, view_at};
ghost use Rattle.rds_script.specs.declared.compared.TheConstants.{AIRINGS_ROOM, COMPARED_ROOM};
ghost use Rattle.rds_script.specs.declared.watched.TheConstants.{OUTPUT_ROOM};

use crate::airing::{Airing, Airings};
use crate::airs::Airs;
use crate::watched::RowLines;
use arrayvec::ArrayVec;
use rds_view_lines::{Prefix, SLOT_ROOM, Shown};
use rds_world::{Config, MOST_RECEIVERS, World};
use std::alloc::{AllocError, Global};

/// The most bytes of the lines that say what the parts of a view are: one line for each of four parts.
const AIRINGS_ROOM: usize = 240;

/// The most bytes of the lines of a slot.
pub(crate) const COMPARED_ROOM: usize = SLOT_ROOM + MOST_RECEIVERS * AIRINGS_ROOM;

/// What was on air, and for each receiver whether the parts of its view were.
#[derive(Drop)]
pub(crate) struct Compared {
    airs: Airs,
    airings: ArrayVec<Airings, MOST_RECEIVERS>,
}

impl Compared {
    /// Begins before the first slot, for this many receivers, which show nothing.
    ///
    /// # Errors
    ///
    /// [`AllocError`] if out of memory.
    fn new(alloc: Global, config: &Config, receivers: usize) -> Result<Compared, AllocError>
        requires few { receivers ≤ MOST_RECEIVERS }
        ensures count { IfOk result (λ c. length c.airings.items ≡ receivers) }
        ensures airs { IfOk result (λ c. AirsStand config.now [] c.airs) }
        ensures each { IfOk result (λ c. (i : ℕ) → airings_at c.airings.items i ≡ all_on_air) }
        ensures room { IfOk result (λ c. AirsHaveRoom c.airs) }
    {
        Ok(Compared {
            airs: Airs::new(alloc, config)?,
            airings: nothing_shown(receivers),
        })
    }

    /// Goes on by one slot: appends what changed on air, and which parts of the views are something else than before.
    // Cold path.
    #[inline(never)]
    fn push(&mut self, slot: u64, world: &World, shown: &[Shown], lines: &mut RowLines)
        requires few { length shown.now ≤ MOST_RECEIVERS }
        requires memory { AirsHaveRoom self.old.airs }
        requires room { length lines.old + COMPARED_ROOM ≤ OUTPUT_ROOM }
        ensures goes_on { WhereWorldStands world.now (λ config events. GoesOnCompared
            (record { config = config; slot = slot; shown = map view_shown shown.now }) events self.old self.new
            lines.old lines.new) }
    {
        self.airs.step(slot, world, lines);
        push_airings(
            slot,
            world,
            &self.airs,
            shown,
            self.airings.as_mut_slice(),
            lines,
        );
    }
}

/// Begins before the first slot with these receivers, if they are radios with the flag bit alone.
///
/// # Errors
///
/// [`AllocError`] if out of memory.
pub(crate) fn new_compared(
    alloc: Global,
    config: &Config,
    receivers: usize,
) -> Result<Option<Compared>, AllocError>
    requires few { receivers ≤ MOST_RECEIVERS }
    ensures stands { IfOk result (λ o. (views : List ShownView) → ((i : ℕ) → view_at views i ≡ none_shown)
        → IsCompared config.now receivers [] views o) }
    ensures room { IfOk result HasRoom }
{
    if config.kind.is_flag_alone {
        Ok(Some(Compared::new(alloc, config, receivers)?))
    } else {
        Ok(None)
    }
}

/// Takes memory for one more slot if something is compared.
///
/// # Errors
///
/// [`AllocError`] if out of memory: only for radios with the flag bit alone.
pub(crate) fn make_room(compared: &mut Option<Compared>) -> Result<(), AllocError>
    ensures room { OnOk result (HasRoom compared.new) }
    ensures stands { (config : Config) (n : ℕ) (events : List Event) (views : List ShownView)
        → IsCompared config n events views compared.old → IsCompared config n events views compared.new }
    ensures alone { OnErr result ((config : Config) (n : ℕ) (events : List Event) (views : List ShownView)
        → IsCompared config n events views compared.old → config.kind.is_flag_alone ≡ true) }
{
    match compared {
        Some(compared) => compared.airs.make_room(),
        None => Ok(()),
    }
}

/// Goes on by one slot if something is compared: for radios with the flag bit alone.
pub(crate) fn compare(
    compared: &mut Option<Compared>,
    slot: u64,
    world: &World,
    shown: &[Shown],
    lines: &mut RowLines,
)
    requires few { length shown.now ≤ MOST_RECEIVERS }
    requires memory { HasRoom compared.old }
    requires room { length lines.old + COMPARED_ROOM ≤ OUTPUT_ROOM }
    ensures { WhereWorldStands world.now (λ config events. Compares
        (record { config = config; slot = slot; shown = map view_shown shown.now }) events compared.old compared.new
        lines.old lines.new) }
{
    if let Some(compared) = compared {
        compared.push(slot, world, shown, lines);
    }
}

/// Returns what the parts of this many views are that show nothing: on air.
fn nothing_shown(receivers: usize) -> ArrayVec<Airings, MOST_RECEIVERS>
    requires { receivers ≤ MOST_RECEIVERS }
    ensures count { length result.items ≡ receivers }
    ensures each { (i : ℕ) → airings_at result.items i ≡ all_on_air }
{
    let mut all = ArrayVec::new();
    for _ in 0..receivers {
        all.push(Airings::default());
    }
    all
}

/// Finds for each view whether its parts were on air, and appends what changed of that.
fn push_airings(
    slot: u64,
    world: &World,
    airs: &Airs,
    shown: &[Shown],
    kept: &mut [Airings],
    lines: &mut RowLines,
)
    requires few { length shown.now ≤ MOST_RECEIVERS }
    requires room { length lines.old + MOST_RECEIVERS * AIRINGS_ROOM ≤ OUTPUT_ROOM }
    ensures lines { length kept.old ≡ length shown.now → lines.new ≡ lines.old
        ++ airings_changes slot (length shown.now) (airings_at kept.old) (airings_at kept.new) }
    ensures each { length kept.old ≡ length shown.now → WhereWorldStands world.now (λ config events.
        AirsStand config events airs.now
        → WereKept config (length shown.now) events kept.old (map view_shown shown.now)
        → (i : ℕ) → i < length shown.now
        → airings_at kept.new i ≡ airings config events (view_at (map view_shown shown.now) i)) }
    ensures count { length kept.new ≡ length kept.old }
{
    for i in 0..shown.len() {
        if i >= kept.len() {
            return;
        }
        let before = if world.changed(i) {
            None
        } else {
            Some(kept[i])
        };
        let now = airs.airings_of(shown[i].view.view(), before);
        push_changed(Prefix::Receiver(slot, i), kept[i], now, lines);
        kept[i] = now;
    }
}

/// Appends a line for each part that is something else than before.
fn push_changed(prefix: Prefix, before: Airings, now: Airings, lines: &mut RowLines)
    requires { length lines.old + AIRINGS_ROOM ≤ OUTPUT_ROOM }
    ensures lines { lines.new ≡ lines.old ++ airings_change (prefix_of prefix) before now }
    ensures room { length lines.new ≤ length lines.old + AIRINGS_ROOM }
{
    push_part(prefix, b"text", before.text, now.text, lines);
    push_part(prefix, b"name", before.name, now.name, lines);
    push_part(prefix, b"tag1", before.one, now.one, lines);
    push_part(prefix, b"tag2", before.two, now.two, lines);
}

/// Appends a line for a part if it is something else than before.
fn push_part(prefix: Prefix, name: &[u8], before: Airing, now: Airing, lines: &mut RowLines)
    requires name { length name.now ≡ 4 }
    requires room { length lines.old + 60 ≤ OUTPUT_ROOM }
    ensures lines { lines.new ≡ lines.old ++ airing_change (prefix_of prefix) name.now before now }
    ensures room { length lines.new ≤ length lines.old + 60 }
{
    let word = airing_word(now);
    if airing_word(before) == word {
        return;
    }
    prefix.push(lines);
    lines.push(name);
    lines.push(word);
    lines.push(b"\n");
}

/// Returns the word for what a part is.
fn airing_word(airing: Airing) -> &'static [u8]
    ensures word { result.now ≡ airing_word airing }
    ensures short { length result.now ≤ 10 }
{
    match airing {
        Airing::OnAir => b" on air",
        Airing::Replaced => b" replaced",
        Airing::Old => b" old",
        Airing::Mix => b" mix",
    }
}
