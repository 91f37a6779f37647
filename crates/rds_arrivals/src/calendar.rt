//! Days of the calendar.
ghost use Rattle.std.specs.Prelude.{◌≡◌, ◌≤◌, IfSome};
ghost use Rattle.rds_arrivals.specs.Stamps as specs;

/// The days before each month of a year that is no leap year.
const BEFORE_MONTH: [u16; 12] = [0, 31, 59, 90, 120, 151, 181, 212, 243, 273, 304, 334];

/// The days of each month.
const IN_MONTH: [u8; 12] = [31, 28, 31, 30, 31, 30, 31, 31, 30, 31, 30, 31];

/// Returns whether the year has a 29 February.
fn is_leap(year: u64) -> bool
    ensures { result ≡ specs.is_leap year }
{
    year % 4 == 0 && (year % 100 != 0 || year % 400 == 0)
}

/// Returns the number of days from the first day of the year 0 to this day. `None` if there is no such day.
pub(crate) fn days_to(year: u64, month: u64, day: u64) -> Option<u64>
    requires { year ≤ 9999 }
    ensures value { result ≡ specs.days_to year month day }
    ensures small { IfSome result (λ days. days ≤ 4000000) }
{
    if month == 0 || month > 12 {
        return None;
    }
    let index = (month - 1) as usize;
    let leap = is_leap(year);
    let longer = u64::from(month == 2 && leap);
    if day == 0 || day > u64::from(IN_MONTH[index]) + longer {
        return None;
    }
    let later = u64::from(month > 2 && leap);
    Some(days_before(year) + u64::from(BEFORE_MONTH[index]) + later + day - 1)
}

/// Returns the number of days in the years before this one.
fn days_before(year: u64) -> u64
    requires { year ≤ 9999 }
    ensures value { result ≡ specs.days_before year }
    ensures small { result ≤ 3655000 }
{
    365 * year + (year + 3) / 4 - (year + 99) / 100 + (year + 399) / 400
}
