//! The slots that are lost between two times.
ghost use Rattle.std.specs.Prelude.{◌≡◌, ◌<◌, ◌-◌, ◌*◌, ◌/◌, ◌^◌, MatchResult};
ghost use Rattle.rds_arrivals.specs.Arrivals.{IsBreak, lost_within, nineteen_slots};
ghost use Rattle.rds_arrivals.specs.Breaks.{IsBreakOf};

use crate::grain::Grain;

/// The microseconds of 19 slots.
pub(crate) const NINETEEN_SLOTS: u64 = 1_664_000;

/// The microseconds of an hour.
const HOUR: u64 = 3_600_000_000;

/// Why nobody knows how many slots passed from one time to the next.
#[derive(Clone, Copy)]
pub enum Break {
    /// The time went back.
    Back,
    /// The time went on by more than an hour.
    Hour,
}

/// Returns how many whole slots this many microseconds have. More than 30,000 years count as fewer.
pub fn slots_in(apart: u64) -> u64
    ensures { 19 * apart < 2 ^ 64 → result ≡ (19 * apart) / nineteen_slots }
{
    apart.saturating_mul(19) / NINETEEN_SLOTS
}

/// Returns how long so many slots take, in microseconds, rounded down. A slot has 104 bits at 1187.5 bit/s
/// (IEC 62106).
pub fn time_of(slots: u32) -> u64
    ensures { result ≡ (nineteen_slots * slots) / 19 }
{
    NINETEEN_SLOTS * u64::from(slots) / 19
}

/// Returns how many slots were lost between groups that arrived at these times, in microseconds.
///
/// # Errors
///
/// The time went back, or on by more than an hour.
pub fn lost_between(earlier: u64, later: u64, grain: Grain) -> Result<u32, Break>
    ensures lost { MatchResult result
        (λ lost. (IsBreak earlier later → ⊥) × (lost ≡ lost_within grain (later - earlier)))
        (IsBreakOf earlier later) }
{
    if later < earlier {
        return Err(Break::Back);
    }
    let apart = later - earlier;
    if apart > HOUR {
        return Err(Break::Hour);
    }
    let passed = 19 * apart.saturating_sub(u64::from(grain.get()));
    Ok((passed.saturating_sub(1) / NINETEEN_SLOTS) as u32)
}
