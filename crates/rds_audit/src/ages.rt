//! The ages of a service's reigns: how many slots ago they started and ended. Each age stops at a limit.
ghost use Rattle.std.specs.Prelude.{◌≡◌, ◌+◌, ◌≤◌, ◌↔◌, IsTrue, IsErr, IfErr, IfOk, min};
ghost use Rattle.rds_audit.specs.Ages.{HasLasted, Joins, aged, restarted};
ghost use Rattle.rds_audit.specs.Stored.{ages_stored, content_stored, reigns_stored};

use crate::AuditFault;
use crate::stored::StoredReigns;

impl StoredReigns {
    /// Returns whether a segment with this flag joins the current reign.
    pub(crate) fn joins(&self, distance: u32, flag: bool) -> bool
        ensures { IsTrue result ↔ Joins distance flag (ages_stored self.now) }
    {
        self.has_flag(flag) && self.since_last < distance
    }

    /// Begins a reign that started so many slots ago.
    pub(crate) fn restart(&mut self, since_start: u32, flag: bool)
        ensures ages { ages_stored self.new ≡ restarted since_start flag (ages_stored self.old) }
        ensures content { content_stored self.new ≡ content_stored self.old }
    {
        self.since_start = since_start;
        self.since_before = self.since_last;
        if self.is_open != 0 && self.has_flag(flag) {
            self.turns = 0;
        }
        self.is_open = 1;
        self.flag = u8::from(flag);
    }

    /// Makes this slot the last one of the current reign so far.
    pub(crate) fn renew(&mut self)
        ensures { self.new ≡ record self.old { since_last = 0 } }
    {
        self.since_last = 0;
    }

    /// Returns whether the current reign started at least M + K slots ago, so that tags may be sent.
    pub(crate) fn has_lasted(&self, distance: u32) -> bool
        ensures { IsTrue result ↔ HasLasted distance (ages_stored self.now) }
    {
        self.is_open != 0 && self.since_start >= distance
    }

    /// Ages the reigns by one slot.
    pub(crate) fn grow_older(&mut self, distance: u32)
        ensures { distance ≤ 66813 → reigns_stored self.new
            ≡ record (reigns_stored self.old) { ages = aged distance (ages_stored self.old) } }
    {
        let limit = distance.wrapping_mul(2);
        self.since_last = one_more(self.since_last, limit);
        self.since_before = one_more(self.since_before, limit);
        self.since_start = one_more(self.since_start, distance);
    }

    /// Returns whether the current reign has this flag.
    pub(crate) fn has_flag(&self, flag: bool) -> bool
        ensures { IsTrue result ↔ (flag ≡ (ages_stored self.now).flag) }
    {
        (self.flag != 0) == flag
    }
}

/// Returns the age one slot later, at most the limit.
fn one_more(age: u32, limit: u32) -> u32
    ensures { result ≡ min (age + 1) limit }
{
    if age < limit { age + 1 } else { limit }
}
