//! The time of a line, and the comment at a break in the times.
ghost use Rattle.std.specs.Prelude.{◌≡◌, ◌≤◌, ◌+◌, ◌++◌, IfSome, Some, codes, length};
ghost use Rattle.rds_lines.specs.LineTimes.{break_line, ended_within, time_of};

use crate::log_line::DECIDING;
use rds_arrivals::{Break, LastMinute, Stamp, stamp_after};

/// The place of the time in a line: after the blocks and a space.
pub const TIME: usize = 20;

/// Returns the time of a slot's line, from its first bytes, and keeps its minute.
pub fn stamp_of(minute: &mut LastMinute, start: &[u8]) -> Option<Stamp>
    requires { length start.now ≤ 60 }
    ensures value { result ≡ time_of start.now }
    ensures within { IfSome result (λ stamp. 20 + stamp.end ≤ length start.now) }
{
    if start.len() < TIME {
        return None;
    }
    ended_within(stamp_after(minute, &start[TIME..]))
}

/// Returns this time if it ends before the last of the bytes that are kept of a line, so that the line shows where it
/// ends.
fn ended_within(found: Option<Stamp>) -> Option<Stamp>
    ensures value { result ≡ ended_within found }
    ensures same { IfSome result (λ stamp. found ≡ Some stamp) }
{
    match found {
        Some(stamp) if stamp.end < DECIDING - TIME => Some(stamp),
        Some(_) | None => None,
    }
}

/// Returns the comment that `slots` writes at a break, without its line feed.
pub fn comment_of(why: Break) -> &'static [u8]
    ensures line { result.now ++ codes "\n" ≡ break_line (Some why) }
    ensures short { length result.now ≤ 60 }
{
    match why {
        Break::Back => b"# time went back",
        Break::Hour => b"# more than an hour passed",
    }
}
