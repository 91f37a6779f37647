//! A world played over a list of slots.
ghost use Rattle.std.specs.Prelude.{◌≡◌, IfErr, IfOk, IsOk, length, reverse};
ghost use Rattle.rds_world.specs.Replies.{CanBePlayed, IsPlayRefused};
ghost use Rattle.rds_world.specs.SafeSlots.{OnlyWhatWasOnAirIsShown};
ghost use Rattle.rds_world.specs.WorldAt.{WorldAt};

use crate::{Config, SlotEvent, StepRefused, World, WorldRefused};
use std::alloc::Global;
use thiserror::Error;

/// Why slots cannot be played.
#[derive(Clone, Copy, Debug, PartialEq, Eq, Error)]
pub enum PlayRefused {
    /// There are more than 8 receivers.
    #[error("there are more than 8 receivers")]
    TooManyReceivers,
    /// Out of memory for the groups of the last K + 1 slots, or for the wrong messages of the last W - 1.
    #[error("out of memory")]
    Memory,
    /// The index of the first event that cannot be taken, if it has another number of receptions than there are
    /// receivers.
    #[error("slot {0} has another number of receptions than there are receivers")]
    ReceiverCount(usize),
    /// The index of the first event that cannot be taken, if a reception is not due, and the first receiver with such a
    /// reception.
    #[error("in slot {0} receiver {1} was to get what is not due to it")]
    Late(usize, usize),
    /// The index of the first event that cannot be taken, if a receiver without a window was to get a wrong group, and
    /// the first such receiver.
    #[error("in slot {0} receiver {1} was to get a wrong group, and has no window")]
    Wrong(usize, usize),
    /// The index of the first event that cannot be taken, if a receiver was to get the same wrong group twice within
    /// its window, and the first such receiver.
    #[error("in slot {0} receiver {1} was to get the same wrong group twice within its window")]
    WrongConfirmed(usize, usize),
}

/// Makes a world and plays these slots, the oldest first.
///
/// # Errors
///
/// If there are more than 8 receivers, if a slot is refused, or if out of memory.
pub fn play(
    alloc: Global,
    config: Config,
    receivers: usize,
    events: &[SlotEvent],
) -> Result<World, PlayRefused>
    ensures stands { IfOk result (λ w.
        WorldAt config w (reverse events.now)) }
    ensures count { IfOk result (λ w. length w.receivers ≡ receivers) }
    ensures safe { IfOk result (λ w.
        OnlyWhatWasOnAirIsShown config (reverse events.now) w.receivers) }
    ensures taken { IsOk result → CanBePlayed config receivers events.now }
    ensures refused { IfErr result (IsPlayRefused config receivers events.now) }
{
    let mut world = match World::new(alloc, config, receivers) {
        Ok(world) => world,
        Err(WorldRefused::TooManyReceivers) => return Err(PlayRefused::TooManyReceivers),
        Err(WorldRefused::Memory) => return Err(PlayRefused::Memory),
    };
    for (i, event) in events.iter().enumerate() {
        match world.step(event) {
            Ok(_) => {}
            Err(StepRefused::ReceiverCount) => return Err(PlayRefused::ReceiverCount(i)),
            Err(StepRefused::Late(receiver)) => return Err(PlayRefused::Late(i, receiver)),
            Err(StepRefused::Wrong(receiver)) => return Err(PlayRefused::Wrong(i, receiver)),
            Err(StepRefused::WrongConfirmed(receiver)) => {
                return Err(PlayRefused::WrongConfirmed(i, receiver));
            }
        }
    }
    Ok(world)
}
