//! How far back a receiver may get a message.
ghost use Rattle.std.specs.Prelude.{◌≡◌, ◌<◌, ◌≤◌, ◌+◌, ◌↔◌, ◌∷◌};
ghost use Rattle.std.specs.Prelude.{ℕ, List, Option, IsSome, IfOk, IfSome, MatchResult, length, take};
ghost use Rattle.rds_world.specs.Due.{IsDue, IsDueToAll, IsFirstLate, named, reach_of};
ghost use Rattle.rds_world.specs.Event.{Event};
ghost use Rattle.rds_world.specs.WorldAt.{HaveReaches};
ghost use Rattle.rds_world.specs.declared.event.TheConstants.{MOST_RECEIVERS};

use crate::{MOST_RECEIVERS, Reception, SlotEvent};
use rds_fields::Late;
use std::marker::Model;

/// A bound on how many slots back a receiver may get a message (this project's own rule): fewer slots than this. So no
/// message comes more than K slots late, and each was sent later than the one that the last `Got` gave. At most K + 1
/// slots.
#[derive(Clone, Copy)]
pub(crate) struct Reach {
    slots: u16,
}

impl Model for Reach {
    ghost use Rattle.std.specs.Prelude.{ℕ};

    ghost Value = { ℕ };

    ghost view = { λ r. r.slots };

    ghost inverse = { λ n. record { slots = n } };
}

impl Reach {
    /// Makes the reach of the first slot, in which only that slot is due.
    pub(crate) fn new() -> Reach
        ensures { result ≡ 1 }
    {
        Reach { slots: 1 }
    }

    /// Returns the reach in the slot after this reception. A restart or a wrong group counts as `Lost`. `None` if the
    /// reception is not due.
    pub(crate) fn after(self, reception: Reception, late: Late) -> Option<Reach>
        ensures due { (slot : ℕ) (last : Option ℕ) → self ≡ reach_of late slot last
            → IsSome result ↔ IsDue late slot last reception }
        ensures reach { (slot : ℕ) (last : Option ℕ) → IfSome last (λ s. s < slot)
            → self ≡ reach_of late slot last
            → IfSome result (λ next. next ≡ reach_of late (slot + 1) (named reception slot last)) }
    {
        let back = match reception {
            Reception::Got(back) if back < self.slots => back,
            Reception::Got(_) => return None,
            Reception::Lost | Reception::Wrong(_) | Reception::Restart => self.slots,
        };
        Some(Reach {
            slots: back.min(late.get()) + 1,
        })
    }
}

/// Returns the reach of each receiver in the slot after this event.
///
/// # Errors
///
/// The number of the first receiver whose reception is not due.
pub(crate) fn reaches_after(
    reaches: &[Reach],
    late: Late,
    event: &SlotEvent,
) -> Result<[Reach; MOST_RECEIVERS], usize>
    requires same { length event.now.receptions ≡ length reaches.now }
    requires few { length reaches.now ≤ MOST_RECEIVERS }
    ensures due { (before : List Event) → HaveReaches late before reaches.now
        → MatchResult result
        (λ _. IsDueToAll late event.now before) (IsFirstLate late event.now before) }
    ensures reaches { (before : List Event) → HaveReaches late before reaches.now
        → IfOk result (λ next. HaveReaches late (event.now ∷ before) (take (length reaches.now) next)) }
{
    let receptions = event.receptions.as_slice();
    let mut next = [Reach::new(); MOST_RECEIVERS];
    for i in 0..receptions.len() {
        let Some(reach) = reaches[i].after(receptions[i], late) else {
            return Err(i);
        };
        next[i] = reach;
    }
    Ok(next)
}
