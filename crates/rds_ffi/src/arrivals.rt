//! Times and slots.
ghost use Rattle.std.specs.Prelude.{◌≡◌, ◌≢◌, ◌≤◌, ◌<◌, ◌-◌, ◌*◌, ◌/◌, ◌⊎◌, IsSome, IfSome};
ghost use Rattle.rds_arrivals.specs.Arrivals.{IsBreak, lost_within, nineteen_slots};
ghost use Rattle.rds_ffi.specs.Codes.{RDSRT_OK, RDSRT_UNKNOWN};
ghost use Rattle.rds_ffi.specs.Times.{time_in};

use crate::codes;
use rds_arrivals::{Grain, lost_between, stamp_in, time_of};

/// The most bytes of a time, with what stands before it and around it.
const LONGEST_TIME: usize = 40;

/// Returns how long so many slots take, in microseconds, rounded down (IEC 62106).
#[unsafe(no_mangle)]
pub extern "C" fn rdsrt_slot_time(slots: u32) -> u64
    ensures { result ≡ (nineteen_slots * slots) / 19 }
{
    time_of(slots)
}

/// Returns how many slots were lost between groups that arrived at these times, if the times are off by at most the
/// grain. All three are in microseconds.
///
/// # Errors
///
/// `RDSRT_UNKNOWN` if the time went back, or on by more than an hour, or if the grain is a slot or more.
#[unsafe(no_mangle)]
pub extern "C" fn rdsrt_lost_slots(earlier: u64, later: u64, grain: u32) -> u32
    ensures lost { result ≢ RDSRT_UNKNOWN → result ≡ lost_within grain (later - earlier) }
    ensures unbroken { result ≢ RDSRT_UNKNOWN → IsBreak earlier later → ⊥ }
    ensures fine { result ≢ RDSRT_UNKNOWN → 19 * grain < nineteen_slots }
    ensures unknown { result ≡ RDSRT_UNKNOWN → IsBreak earlier later ⊎ nineteen_slots ≤ 19 * grain }
{
    let Some(grain) = Grain::new(grain) else {
        return codes::UNKNOWN;
    };
    match lost_between(earlier, later, grain) {
        Ok(lost) => lost,
        Err(_) => codes::UNKNOWN,
    }
}

/// Reads the time that a text begins with, in microseconds: what follows the blocks and a space in a line of a log
/// (this project's own rule, docs/FORMATS.md). It ends within the first 40 bytes. A date counts from the year 0, a time
/// of day from midnight, and seconds and milliseconds from a moment of their own.
///
/// # Errors
///
/// `RDSRT_UNKNOWN` if the text does not begin with such a time. The time is then unchanged.
#[unsafe(no_mangle)]
pub extern "C" fn rdsrt_time_in(text: &[u8], time: &mut u64) -> u32
    ensures found { result ≡ RDSRT_OK → IfSome (time_in text.now) (λ stamp. time.new ≡ stamp.time) }
    ensures there { result ≡ RDSRT_OK → IsSome (time_in text.now) }
    ensures none { result ≢ RDSRT_OK → IsSome (time_in text.now) → ⊥ }
    ensures codes { (result ≡ RDSRT_OK) ⊎ (result ≡ RDSRT_UNKNOWN) }
    ensures kept { result ≢ RDSRT_OK → time.new ≡ time.old }
{
    // the byte after the longest time shows that it ends
    let count = (LONGEST_TIME + 1).min(text.len());
    let Some(stamp) = stamp_in(&text[..count]) else {
        return codes::UNKNOWN;
    };
    if stamp.end > LONGEST_TIME {
        return codes::UNKNOWN;
    }
    *time = stamp.time;
    codes::OK
}
