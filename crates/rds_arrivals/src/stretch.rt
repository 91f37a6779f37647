//! Stretches of a log without a break, and whether their times are too coarse to count slots by.
ghost use Rattle.std.specs.Prelude.{◌≡◌, ◌↔◌, IfSome, IsTrue};
ghost use Rattle.rds_arrivals.specs.Coarse.{IsCoarse, begun_at, followed_by, room};

use crate::grain::Grain;
use crate::lost::{NINETEEN_SLOTS, lost_between};

/// A stretch of a log without a break. Its times are in microseconds.
#[derive(Clone, Copy)]
pub struct Stretch {
    /// The time of the first group.
    pub first: u64,
    /// The time of the newest group.
    pub last: u64,
    /// The number of slots from the first group to the newest one.
    pub slots: u64,
}

impl Stretch {
    /// Starts a stretch with a group.
    fn new(time: u64) -> Stretch
        ensures { result ≡ begun_at time }
    {
        Stretch {
            first: time,
            last: time,
            slots: 0,
        }
    }

    /// Returns the stretch of a group of this time, which follows a group of that stretch. A break begins a new one.
    /// The lost slots between the two groups are those by their times, and no fewer than `told`: so many were known
    /// before the group came. The count of slots stops at 2^64 - 1, which only a coarse stretch reaches.
    pub fn after(before: Option<Stretch>, told: u32, time: u64, grain: Grain) -> Stretch
        ensures last { result.last ≡ time }
        ensures value { IfSome before (λ s. IsCoarse grain s → ⊥) → result ≡ followed_by grain before told time }
    {
        let Some(stretch) = before else {
            return Stretch::new(time);
        };
        match lost_between(stretch.last, time, grain) {
            Ok(lost) => Stretch {
                first: stretch.first,
                last: time,
                slots: stretch.slots.saturating_add(u64::from(lost.max(told)) + 1),
            },
            Err(_) => Stretch::new(time),
        }
    }

    /// Returns how many slots fit between its times, which are off by at most the grain.
    pub fn room(self, grain: Grain) -> u64
        ensures { result ≡ room grain self }
    {
        let passed = self.last.saturating_sub(self.first);
        let rest = passed % NINETEEN_SLOTS + u64::from(grain.get());
        19 * (passed / NINETEEN_SLOTS) + 19 * rest / NINETEEN_SLOTS
    }

    /// Returns whether it has more slots than fit between its times.
    pub fn is_coarse(self, grain: Grain) -> bool
        ensures { IsTrue result ↔ IsCoarse grain self }
    {
        self.room(grain) < self.slots
    }
}
