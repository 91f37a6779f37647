//! The lines of mixes.
ghost use Rattle.std.specs.Prelude.{◌≡◌, ◌≢◌, ◌⊎◌, ◌≤◌, ◌<◌, ◌+◌, ◌++◌, ◌∷◌, [], IsTrue, false, length};
ghost use Rattle.rds_receiver.specs.Receipts.{tuned};
ghost use Rattle.rds_receiver.specs.Borrowed.{view_of};
ghost use Rattle.rds_witness.specs.Borrowed.{IsShortThing, thing_of};
ghost use Rattle.rds_witness.specs.Candidates.{AddsKindOfIt, AreAroundIt, AreItsMixLines, IsNeverShown, KnowsFirsts};
ghost use Rattle.rds_witness.specs.Firsts.{AreFirsts};
ghost use Rattle.rds_witness.specs.Lines.{AreMixLines, burst_text, lose_words, shown_line, tag_name};
ghost use Rattle.rds_witness.specs.Mix.{Has, IsPlace, ViewHas};
ghost use Rattle.rds_witness.specs.SomeLines.{kind_of};

use crate::burst::Burst;
use crate::candidate::Candidate;
use crate::checking::{receiver_before, slots_until};
use crate::firsts::Firsts;
use crate::thing::{KINDS, Thing, shows};
use rds_block::Blocks;
use rds_fields::{Dwell, Which};
use rds_io::Lines;
use rds_receiver::View;
use rds_view_lines::{push_class, push_quoted};

/// The most bytes of the lines of the four things of a slot.
pub(crate) const ROOM: usize = 2048;

/// The most bytes of the words before a line.
const WORDS: usize = 64;

/// Appends the slots of a burst.
fn push_burst(burst: Burst, lines: &mut Lines<WORDS>)
    requires { length lines.old + 41 ≤ 64 }
    ensures burst { lines.new ≡ lines.old ++ burst_text burst }
    ensures room { length lines.new ≤ length lines.old + 41 }
{
    lines.push_number(burst.first as u64);
    if burst.first != burst.last {
        lines.push(b"-");
        lines.push_number(burst.last as u64);
    }
}

/// Appends the words that name the slots to lose.
fn push_lose_words(burst: Burst, lines: &mut Lines<WORDS>)
    requires { lines.old ≡ [] }
    ensures words { lines.new ≡ lose_words burst }
    ensures room { length lines.new ≤ 54 }
{
    lines.push(b"lose ");
    push_burst(burst, lines);
    lines.push(b": ");
}

/// Appends the line that `decode` writes if a thing is shown in a slot.
fn push_shown(slot: usize, thing: Thing<'_>, lines: &mut Lines<ROOM>)
    requires short { IsShortThing thing }
    requires room { length lines.old + 310 ≤ 2048 }
    ensures shown { lines.new ≡ lines.old ++ shown_line slot (thing_of thing.entry) }
    ensures room { length lines.new ≤ length lines.old + 310 }
{
    lines.push_number(slot as u64);
    lines.push(b" ");
    match thing {
        Thing::Text(text) => {
            lines.push(b"text");
            push_quoted(text, lines);
        }
        Thing::Name(name) => {
            lines.push(b"name");
            push_quoted(name, lines);
        }
        Thing::Tag(which, class, piece) => {
            lines.push(tag_name(which));
            push_class(class, lines);
            push_quoted(piece, lines);
        }
    }
    lines.push(b"\n");
}

/// Returns the name of a tag in the output.
fn tag_name(which: Which) -> &'static [u8]
    ensures name { result.now ≡ tag_name which }
    ensures four { length result.now ≡ 4 }
{
    match which {
        Which::One => b"tag1",
        Which::Two => b"tag2",
    }
}

/// Returns whether a thing that is shown in a slot is a mix there: the slot before does not show it, and a receiver
/// that loses nothing shows it in none of the slots to look at.
fn is_mix(candidate: &Candidate<'_>, before: View<'_>, thing: Thing<'_>) -> bool
    requires inside { candidate.now.slot < length candidate.now.log.now }
    requires firsts { KnowsFirsts candidate.now }
    requires short { IsShortThing thing }
    ensures new { IsTrue result → ViewHas (view_of before.entry) (thing_of thing.entry) → ⊥ }
    ensures never { IsTrue result → IsNeverShown candidate.now (thing_of thing.entry) }
    ensures no { result ≡ false → ViewHas (view_of before.entry) (thing_of thing.entry)
        ⊎ (IsNeverShown candidate.now (thing_of thing.entry) → ⊥) }
{
    if shows(before, thing) {
        return false;
    }
    let until = slots_until(candidate.log, candidate.ahead, candidate.slot);
    candidate.firsts.is_never_shown(until, thing)
}

/// Appends the line of a thing of the view after the slot, if it is a mix.
fn push_if_mix(
    candidate: &Candidate<'_>,
    before: View<'_>,
    after: View<'_>,
    thing: Thing<'_>,
    lines: &mut Lines<ROOM>,
)
    requires around { AreAroundIt candidate.now (view_of before) (view_of after) }
    requires firsts { KnowsFirsts candidate.now }
    requires has { Has (view_of after) (thing_of thing) }
    requires words { length candidate.now.words.now ≤ 54 }
    requires short { IsShortThing thing }
    requires room { length lines.old + 364 ≤ 2048 }
    ensures mixes { AddsKindOfIt (kind_of (thing_of thing.entry)) candidate.now lines.old lines.new }
    ensures room { length lines.new ≤ length lines.old + 364 }
{
    if is_mix(candidate, before, thing) {
        lines.push(candidate.words);
        push_shown(candidate.slot, thing, lines);
    }
}

/// Appends the line of each thing that is a mix in the slot if the burst is lost, with the slots to lose. Appends
/// nothing if the burst is not before the slot.
pub(crate) fn push_mixes(
    log: &[Option<Blocks>],
    firsts: &Firsts,
    pi: u16,
    dwell: Dwell,
    burst: Burst,
    slot: usize,
    lines: &mut Lines<ROOM>,
)
    requires firsts { AreFirsts (tuned pi dwell) log.now (length log.now) firsts.now }
    requires none { lines.old ≡ [] }
    ensures { lines.new ≢ [] → IsPlace burst slot log.now
        × AreMixLines (tuned pi dwell) dwell log.now (burst ∷ []) (lose_words burst) slot lines.new }
{
    if burst.first > burst.last || burst.last >= slot || slot >= log.len() {
        return;
    }
    let lost = [burst];
    let before = receiver_before(log, pi, dwell, &lost, slot);
    let after = receiver_before(log, pi, dwell, &lost, slot + 1);
    let mut words = Lines::new();
    push_lose_words(burst, &mut words);
    let candidate = Candidate {
        log,
        pi,
        dwell,
        ahead: dwell,
        lost: &lost,
        firsts,
        words: words.bytes(),
        slot,
    };
    push_mixes_of(&candidate, before.view(), after.view(), lines);
}

/// Appends the line of each thing of the view after the slot that is a mix.
pub(crate) fn push_mixes_of(
    candidate: &Candidate<'_>,
    before: View<'_>,
    after: View<'_>,
    lines: &mut Lines<ROOM>,
)
    requires around { AreAroundIt candidate.now (view_of before) (view_of after) }
    requires firsts { KnowsFirsts candidate.now }
    requires words { length candidate.now.words.now ≤ 54 }
    requires none { lines.old ≡ [] }
    ensures { AreItsMixLines candidate.now lines.new }
{
    for kind in 0..KINDS {
        if let Some(thing) = Thing::of_kind(after, kind) {
            push_if_mix(candidate, before, after, thing, lines);
        }
    }
}
