//! The receivers' part of a slot: hands out the groups, and marks the receivers whose view may have changed.
ghost use Rattle.std.specs.Prelude.{◌≡◌, ◌≤◌, ◌<◌, ℕ, List, None, Option, Some, IsFalse, false, length, slice_index_or};
ghost use Rattle.std.specs.Prelude.{take, true};
ghost use Rattle.std.specs.List.{AllByRecursion};
ghost use Rattle.rds_fields.specs.declared.message.Message.{Message};
ghost use Rattle.rds_world.specs.declared.event.Reception.TheVariants.{Lost};
ghost use Rattle.rds_world.specs.declared.event.TheConstants.{MOST_RECEIVERS};
ghost use Rattle.rds_world.specs.Due.{IsDue};
ghost use Rattle.rds_safety.specs.Late.{Input};
ghost use Rattle.rds_receiver.specs.Receipts.{Hears};
ghost use Rattle.rds_world.specs.Slots.{received};
ghost use Rattle.rds_world.specs.WorldAt.{AllHaveHeard, AreLastSent, HasHeard, HeardNothing, StaysShown};
ghost use Rattle.rds_world.specs.WorldAt.{WhereTheyListen, all_received};

use crate::recent::Recent;
use crate::{Config, MOST_RECEIVERS, Reception};
use rds_block::{Blocks, Group};
use rds_fields::{Head, Message};
use rds_receiver::Receiver;

/// Makes eight receivers that have heard nothing yet.
// Prover: all eight are written out, without `array::from_fn` (PROVER.md, "Workarounds").
pub(crate) fn eight_receivers(config: &Config) -> [Receiver; MOST_RECEIVERS]
    ensures new { AllByRecursion (HeardNothing config.now) result }
    ensures some { 0 < config.now.dwell }
{
    [
        new_receiver(config),
        new_receiver(config),
        new_receiver(config),
        new_receiver(config),
        new_receiver(config),
        new_receiver(config),
        new_receiver(config),
        new_receiver(config),
    ]
}

/// Makes a receiver that has heard nothing yet.
fn new_receiver(config: &Config) -> Receiver
    ensures new { HeardNothing config.now result }
    ensures some { 0 < config.now.dwell }
{
    let dwell = config.kind.dwell(config.dwell);
    Receiver::tuned(config.head.pi, dwell, config.kind.own_window())
}

/// Which receivers may show something else than before a slot.
#[derive(Clone, Copy)]
pub(crate) struct Changes {
    /// A mark for each receiver. If it is false, the view of that receiver did not change.
    pub(crate) each: [bool; MOST_RECEIVERS],
    /// Whether a receiver has the mark.
    pub(crate) any: bool,
}

impl Changes {
    /// Returns the marks before the first slot.
    pub(crate) fn all() -> Changes
        ensures any { result.any ≡ true }
    {
        Changes {
            each: [true; MOST_RECEIVERS],
            any: true,
        }
    }
}

/// Gives each of the first receivers its reception of a slot from the recent groups. Marks those whose view may have
/// changed.
// Prover: a part of an array in a struct is lent behind a call (PROVER.md, "Workarounds").
pub(crate) fn hand_out_first(
    receivers: &mut [Receiver; MOST_RECEIVERS],
    count: usize,
    config: &Config,
    receptions: &[Reception],
    recent: &Recent,
) -> Changes
    requires same { length receptions.now ≡ count }
    requires few { count ≤ MOST_RECEIVERS }
    requires eight { length receivers.old ≡ MOST_RECEIVERS }
    ensures eight { length receivers.new ≡ MOST_RECEIVERS }
    ensures heard { WhereTheyListen config.now receptions.now recent.now.items (take count receivers.old)
        (λ slot sent inputs. AllHaveHeard config.now
        (all_received receptions.now slot sent inputs) (take count receivers.new)) }
    ensures same { WhereTheyListen config.now receptions.now recent.now.items (take count receivers.old)
        (λ slot sent inputs. (i : ℕ) → slice_index_or result.each i true ≡ false
        → StaysShown config.now (inputs i) (all_received receptions.now slot sent inputs i)) }
    ensures any { result.any ≡ false → (i : ℕ) → i < count → slice_index_or result.each i true ≡ false }
{
    hand_out(&mut receivers[..count], config, receptions, recent)
}

/// Gives each receiver its reception of a slot from the recent groups. Marks the receivers whose view may have changed.
fn hand_out(
    receivers: &mut [Receiver],
    config: &Config,
    receptions: &[Reception],
    recent: &Recent,
) -> Changes
    requires same { length receptions.now ≡ length receivers.old }
    requires few { length receivers.old ≤ MOST_RECEIVERS }
    ensures count { length receivers.new ≡ length receivers.old }
    ensures heard { WhereTheyListen config.now receptions.now recent.now.items receivers.old
        (λ slot sent inputs. AllHaveHeard config.now
        (all_received receptions.now slot sent inputs) receivers.new) }
    ensures same { WhereTheyListen config.now receptions.now recent.now.items receivers.old
        (λ slot sent inputs. (i : ℕ) → slice_index_or result.each i true ≡ false
        → StaysShown config.now (inputs i) (all_received receptions.now slot sent inputs i)) }
    ensures any { result.any ≡ false → (i : ℕ) → i < length receivers.old
        → slice_index_or result.each i true ≡ false }
{
    let mut each = [true; MOST_RECEIVERS];
    let mut any = false;
    if receivers.is_empty() {
        return Changes { each, any };
    }
    let newest = recent.back(0);
    for i in 0..receivers.len() {
        let changed = receive(&mut receivers[i], config, receptions[i], recent, &newest);
        each[i] = changed;
        any |= changed;
    }
    Changes { each, any }
}

/// Gives one receiver its reception of a slot. If it returns false, the view did not change.
fn receive(
    receiver: &mut Receiver,
    config: &Config,
    reception: Reception,
    recent: &Recent,
    newest: &Option<Blocks>,
) -> bool
    requires { newest.now ≡ slice_index_or recent.now.items 0 None }
    ensures heard { (slot : ℕ) (sent : List (Option Message)) (input : Input) (last : Option ℕ)
        → AreLastSent config.now sent recent.now.items
        → IsDue config.now.late slot last reception
        → HasHeard config.now input receiver.old
        → HasHeard config.now (received reception slot sent input) receiver.new }
    ensures same { (slot : ℕ) (sent : List (Option Message)) (input : Input) (last : Option ℕ)
        → AreLastSent config.now sent recent.now.items
        → IsDue config.now.late slot last reception
        → HasHeard config.now input receiver.old → IsFalse result
        → StaysShown config.now input (received reception slot sent input) }
{
    match reception {
        Reception::Got(back) => receiver.slot_blocks(recent.back_from(newest, back)),
        Reception::Lost => receiver.slot_blocks(None),
        Reception::Wrong(message) => receiver.slot_blocks(Some(blocks_of(message, config.head))),
        Reception::Restart => {
            *receiver = new_receiver(config);
            true
        }
    }
}

/// Returns a group with this head that spells the message.
fn blocks_of(message: Message, head: Head) -> Blocks
    ensures { Hears head.pi (Some result) (Some message) }
{
    let pi = head.pi;
    match message.group(head) {
        Some(group) => group.blocks(),
        None => Group::from_blocks([pi, 0, 0, 0]).blocks(),
    }
}
