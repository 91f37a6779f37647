//! What a station has on air, and what it had before.
ghost use Rattle.std.specs.Prelude.{◌≡◌, ◌↔◌, ◌≤◌, ◌<◌, ◌+◌, ◌++◌, ◌∷◌, [], ℕ, ◌-◌, ◌^◌, IfOk, List, None, OnOk};
ghost use Rattle.std.specs.Prelude.{length, true, option_copied};
ghost use Rattle.rds_receiver.specs.Borrowed.{view_of};
ghost use Rattle.rds_view_lines.specs.KeptView.{view_kept};
ghost use Rattle.rds_view_lines.specs.Output.{air_prefix, change};
ghost use Rattle.rds_view_lines.specs.declared.change.TheConstants.{SLOT_ROOM};
ghost use Rattle.rds_world.specs.Event.{Event};
ghost use Rattle.rds_world.specs.OnAir.{air_of};
ghost use Rattle.rds_world.specs.WorldAt.{WhereWorldStands};
ghost use Rattle.rds_world.specs.declared.world.Config.{Config};
ghost use Rattle.rds_script.specs.OnAir.{airings, either, parts_among};
ghost use Rattle.rds_script.specs.Inside.Compared.{AirsHaveRoom, AirsStand, WereBefore, airs_in, goes_on, newest_of};
ghost use Rattle.rds_script.specs.Inside.Compared.{reached};
ghost use Rattle.rds_script.specs.declared.watched.TheConstants.{OUTPUT_ROOM};

use crate::airing::Airings;
use crate::watched::RowLines;
use rds_receiver::View;
use rds_view_lines::{KeptView, Parts, Prefix, push_changes, same_parts};
use rds_world::{Config, World};
use std::alloc::{AllocError, Global};

/// What was on air in a row of slots.
#[derive(Drop)]
struct Period {
    air: KeptView,
    /// The number of slots after the first one.
    more: u64,
}

/// How far back a part of a view is looked for.
#[derive(Clone, Copy)]
enum Lookback {
    /// In the last d slots.
    Lately,
    /// In the last d slots, and before them as long as the text was the same.
    Texts,
    /// In all slots.
    Ever,
}

/// What is on air, and what was on air at the end of each slot before.
#[derive(Drop)]
pub(crate) struct Airs {
    /// The spacing d of the station, in slots.
    spacing: u64,
    /// The oldest first.
    periods: Vec<Period>,
}

impl Airs {
    /// Begins before the first slot.
    ///
    /// # Errors
    ///
    /// [`AllocError`] if out of memory.
    pub(crate) fn new(alloc: Global, config: &Config) -> Result<Airs, AllocError>
        ensures stands { IfOk result (AirsStand config.now []) }
        ensures room { IfOk result AirsHaveRoom }
    {
        Ok(Airs {
            spacing: u64::from(config.distance().get()),
            periods: Vec::with_capacity(alloc, 1)?,
        })
    }

    /// Takes memory for one more slot.
    ///
    /// # Errors
    ///
    /// [`AllocError`] if out of memory.
    pub(crate) fn make_room(&mut self) -> Result<(), AllocError>
        ensures room { OnOk result (AirsHaveRoom self.new) }
        ensures spacing { self.new.spacing ≡ self.old.spacing }
        ensures periods { self.new.periods.items ≡ self.old.periods.items }
    {
        self.periods.reserve(1)
    }

    /// Takes what is on air after one more slot, and appends a line for each part of it that changed.
    pub(crate) fn step(&mut self, slot: u64, world: &World, lines: &mut RowLines)
        requires room { AirsHaveRoom self.old }
        requires lines { length lines.old + SLOT_ROOM ≤ OUTPUT_ROOM }
        ensures spacing { self.new.spacing ≡ self.old.spacing }
        ensures airs { WhereWorldStands world.now (λ config events.
            airs_in self.new.periods.items ≡ air_of config events ∷ airs_in self.old.periods.items) }
        ensures lines { WhereWorldStands world.now (λ config events. lines.new
            ≡ lines.old ++ change (air_prefix slot) None (newest_of (airs_in self.old.periods.items))
            (air_of config events)) }
        ensures room { length lines.new ≤ length lines.old + SLOT_ROOM }
    {
        let now = view_on_air(world);
        push_changes(Prefix::OnAir(slot), None, self.newest(), now, lines);
        self.push(now);
    }

    /// Returns what was on air last.
    #[tactic(auto, using(crate::proofs::Periods::newest_is))]
    fn newest(&self) -> View<'_>
        ensures { view_of result ≡ newest_of (airs_in self.now.periods.items) }
    {
        match self.periods.last() {
            Some(period) => period.air.view(),
            None => View::of(None, None, None),
        }
    }

    /// Adds a slot with this on air.
    #[tactic(auto, using(crate::proofs::Periods::longer, crate::proofs::Periods::airs_of_more))]
    fn push(&mut self, now: View<'_>)
        requires { AirsHaveRoom self.old }
        ensures spacing { self.new.spacing ≡ self.old.spacing }
        ensures airs { airs_in self.new.periods.items ≡ view_of now.entry ∷ airs_in self.old.periods.items }
    {
        let count = self.periods.len();
        if count > 0 && self.periods[count - 1].goes_on(now) {
            self.periods[count - 1].more += 1;
            return;
        }
        self.periods
            .push(Period {
                air: KeptView::of(now),
                more: 0,
            })
            .unwrap();
    }

    /// Returns for each part of a view whether it was on air. If the view was the same one slot before, `before` has
    /// what its parts were then. So not all slots are searched again.
    pub(crate) fn airings_of(&self, view: View<'_>, before: Option<Airings>) -> Airings
        ensures { (config : Config) (events : List Event) → AirsStand config events self.now
            → WereBefore config events (view_of view.entry) before
            → result ≡ airings config events (view_of view.entry) }
    {
        let nothing = KeptView::new();
        let lately = either(
            same_parts(view, nothing.view()),
            self.parts_back(Lookback::Lately, view),
        );
        if lately.text && lately.name && lately.one && lately.two {
            return Airings::by(lately, lately, lately);
        }
        let for_text = self.parts_back(Lookback::Texts, view);
        let ever = match before {
            Some(before) => before.ever(),
            None => self.parts_back(Lookback::Ever, view),
        };
        Airings::by(lately, for_text, ever)
    }

    /// Returns which parts of a view were on air, as far back as this reaches.
    fn parts_back(&self, lookback: Lookback, view: View<'_>) -> Parts
        ensures { result ≡ parts_among (view_of view.entry)
            (reached lookback self.now.spacing None (airs_in self.now.periods.items)) }
    {
        let mut found = Parts::default();
        let mut left = self.spacing;
        let mut text = None;
        for i in 0..self.periods.len() {
            let period = &self.periods[self.periods.len() - 1 - i];
            let air = period.air.view();
            if left == 0 && !lookback.goes_on(text, air.text) {
                return found;
            }
            found = either(found, same_parts(view, air));
            left = left.saturating_sub(1).saturating_sub(period.more);
            text = air.text;
        }
        found
    }
}

impl Period {
    /// Returns whether the next slot with this on air belongs to the period.
    fn goes_on(&self, now: View<'_>) -> bool
        ensures same { result ≡ true → view_of now.entry ≡ view_kept self.now.air }
        ensures count { result ≡ true → self.now.more < 2 ^ 64 - 1 }
        ensures goes { view_of now.entry ≡ view_kept self.now.air → self.now.more < 2 ^ 64 - 1 → result ≡ true }
    {
        is_same(self.air.view(), now) && self.more < u64::MAX
    }
}

impl Lookback {
    /// Returns whether a search goes on, past the last d slots, from what was on air with this text to what was on air
    /// before it.
    fn goes_on(self, text: Option<&[u8]>, before: Option<&[u8]>) -> bool
        ensures { result ≡ goes_on self (option_copied text.entry) (option_copied before.entry) }
    {
        match self {
            Lookback::Lately => false,
            Lookback::Texts => text == before,
            Lookback::Ever => true,
        }
    }
}

/// Returns whether both views show the same.
fn is_same(view: View<'_>, other: View<'_>) -> bool
    ensures { (result ≡ true) ↔ (view_of view.entry ≡ view_of other.entry) }
{
    let same = same_parts(view, other);
    if same.text && same.name && same.one && same.two {
        return view.item == other.item;
    }
    false
}

/// Returns yes for each part for which one of these has a yes.
fn either(one: Parts, other: Parts) -> Parts
    ensures { result ≡ either one other }
{
    Parts {
        text: one.text || other.text,
        name: one.name || other.name,
        one: one.one || other.one,
        two: one.two || other.two,
    }
}

/// Returns all that is on air, as a receiver would show it.
fn view_on_air(world: &World) -> View<'_>
    ensures { WhereWorldStands world.now (λ config events. view_of result ≡ air_of config events) }
{
    let (text, name) = world.on_air();
    View::of(text, name, world.tags_on_air())
}
