//! The time in the text after a group.
ghost use Rattle.rds_arrivals.specs.Stamps as specs;
ghost use Rattle.std.specs.Prelude.{◌≡◌, ◌≤◌, ◌<◌, ◌+◌, ◌^◌, ℕ, IfSome, IsTrue, length, slice_index};

use crate::calendar::days_to;
use crate::last_minute::LastMinute;

/// A time in microseconds, and the place after it in the text.
#[derive(Clone, Copy)]
pub struct Stamp {
    pub time: u64,
    pub end: usize,
}

/// The microseconds of a second.
const SECOND: u64 = 1_000_000;

/// The minutes of a day.
const MINUTES_OF_DAY: u64 = 1440;

/// The microseconds of a millisecond.
const MILLISECOND: u64 = 1000;

/// So many digits are milliseconds: those since 1970 have as many from 2001 to 2286. Fewer digits are seconds.
const DIGITS_OF_MILLISECONDS: usize = 13;

/// Returns the time that the text begins with, after spaces and tabs: `@YYYY/MM/DD HH:MM:SS.CC`,
/// `YYYY-MM-DDTHH:MM:SS.CC+HH:MM`, a time of day such as `HH:MM:SS.CC`, seconds such as `12.5`, or 13 digits of
/// milliseconds. Brackets may stand around it. `None` if the text does not begin with a time, or if the time does not
/// end with a space, a tab, a carriage return or the text.
pub fn stamp_in(text: &[u8]) -> Option<Stamp>
    requires { length text.now ≤ 64 }
    ensures value { result ≡ specs.stamp_in text.now }
    ensures within { IfSome result (λ stamp. stamp.end ≤ length text.now) }
{
    stamp_after(&mut LastMinute::new(), text)
}

/// Does what [`stamp_in`] does for a text of many, and keeps its minute: most times have the minute of the one before.
#[tactic(auto, unfolding(crate::specs::Stamps::stamp_in))]
pub fn stamp_after(last: &mut LastMinute, text: &[u8]) -> Option<Stamp>
    requires { length text.now ≤ 64 }
    ensures value { result ≡ specs.stamp_in text.now }
    ensures within { IfSome result (λ stamp. stamp.end ≤ length text.now) }
{
    let blanks = leading_blanks(text);
    let stamp = stamp_at_once(last, &text[blanks..])?;
    Some(Stamp {
        time: stamp.time,
        end: blanks + stamp.end,
    })
}

/// Returns the number of spaces and tabs that the text begins with.
fn leading_blanks(text: &[u8]) -> usize
    ensures value { result ≡ specs.leading_blanks text.now }
    ensures within { result ≤ length text.now }
{
    let mut count = 0;
    while count < text.len() && (text[count] == b' ' || text[count] == b'\t') {
        count += 1;
    }
    count
}

/// Returns the time that a text without blanks before it begins with.
fn stamp_at_once(last: &mut LastMinute, text: &[u8]) -> Option<Stamp>
    requires { length text.now ≤ 64 }
    ensures value { result ≡ specs.stamp_at_once text.now }
    ensures within { IfSome result (λ stamp. stamp.end ≤ length text.now) }
{
    let stamp = if has(text, 0, b'[') {
        in_brackets(last, text)?
    } else {
        form_in(last, text)?
    };
    if is_over(text, stamp.end) {
        Some(stamp)
    } else {
        None
    }
}

/// Returns the time between brackets, such as `[07:58:12]`.
fn in_brackets(last: &mut LastMinute, text: &[u8]) -> Option<Stamp>
    requires some { 0 < length text.now }
    requires few { length text.now ≤ 64 }
    ensures value { result ≡ specs.in_brackets text.now }
{
    let inner = &text[1..];
    let stamp = form_in(last, inner)?;
    if !has(inner, stamp.end, b']') {
        return None;
    }
    Some(Stamp {
        time: stamp.time,
        end: stamp.end + 2,
    })
}

/// Returns the first of the forms of a time that the text begins with.
fn form_in(last: &mut LastMinute, text: &[u8]) -> Option<Stamp>
    requires { length text.now ≤ 64 }
    ensures value { result ≡ specs.form_in text.now }
    ensures end { IfSome result (λ stamp. stamp.end ≤ 210) }
{
    if let Some(stamp) = dated(last, text) {
        return Some(stamp);
    }
    if let Some(stamp) = time_of_day(text) {
        return Some(stamp);
    }
    in_number(text)
}

/// Returns whether the time ends here: with the text, a space, a tab or a carriage return.
fn is_over(text: &[u8], place: usize) -> bool
    ensures value { result ≡ specs.is_over text.now place }
    ensures within { IsTrue result → place ≤ length text.now }
{
    place == text.len() || has_either(text, place, b' ', b'\t') || has(text, place, b'\r')
}

/// Returns whether this byte is at this place.
fn has(text: &[u8], place: usize, byte: u8) -> bool
    ensures { result ≡ specs.has text.now place byte }
{
    place < text.len() && text[place] == byte
}

/// Returns whether one of these two bytes is at this place.
fn has_either(text: &[u8], place: usize, one: u8, other: u8) -> bool
    ensures { result ≡ specs.has_either text.now place one other }
{
    has(text, place, one) || has(text, place, other)
}

/// Returns the digit at this place.
fn digit_at(text: &[u8], place: usize) -> Option<u64>
    ensures value { result ≡ specs.digit_at text.now place }
    ensures small { IfSome result (λ digit. digit ≤ 9) }
    ensures within { IfSome result (λ digit. place < length text.now) }
{
    if place >= text.len() || text[place] < b'0' || text[place] > b'9' {
        return None;
    }
    Some(u64::from(text[place] - b'0'))
}

/// Returns the number of two digits at this place.
fn two_at(text: &[u8], place: usize) -> Option<u64>
    requires { place ≤ 1000 }
    ensures value { result ≡ specs.two_at text.now place }
    ensures small { IfSome result (λ number. number ≤ 99) }
{
    let tens = digit_at(text, place)?;
    let ones = digit_at(text, place + 1)?;
    Some(10 * tens + ones)
}

/// Returns the number of two digits at this place, if it is not above `most`.
fn two_up_to(text: &[u8], place: usize, most: u64) -> Option<u64>
    requires { place ≤ 1000 }
    ensures value { result ≡ specs.up_to most (specs.two_at text.now place) }
    ensures small { IfSome result (λ number. number ≤ most) }
{
    let number = two_at(text, place)?;
    if number > most {
        return None;
    }
    Some(number)
}

/// Returns the time of a date and a time of day.
#[tactic(auto, using(crate::proofs::Fractions::no_date))]
fn dated(last: &mut LastMinute, text: &[u8]) -> Option<Stamp>
    requires { length text.now ≤ 64 }
    ensures value { result ≡ specs.dated text.now }
    ensures end { IfSome result (λ stamp. stamp.end ≤ 210) }
{
    let at = usize::from(has(text, 0, b'@'));
    if text.len() < at + 19 {
        return None;
    }
    let minutes = last.minutes_at(text, at)?;
    let second = second_at(text, at + 16)?;
    let fraction = clock_fraction_at(text, at + 19);
    let local = (minutes * 60 + second) * SECOND + fraction.time;
    zoned(text, local, fraction.end)
}

/// Returns the minute of a date and a time of day at this place, such as `2024/06/01 07:58`. The year 0 begins with
/// minute 0.
// Cold path.
#[inline(never)]
pub(crate) fn minute_at(text: &[u8], place: usize) -> Option<u64>
    requires { place ≤ 1 }
    ensures value { result ≡ specs.minute_at text.now place }
    ensures small { IfSome result (λ minutes. minutes < 2 ^ 33) }
{
    let days = date_at(text, place)?;
    let minute = day_minute_at(text, place + 11)?;
    if !has_either(text, place + 10, b' ', b'T') {
        return None;
    }
    Some(days * MINUTES_OF_DAY + minute)
}

/// Returns the minute of the day at this place, such as `07:58`.
fn day_minute_at(text: &[u8], place: usize) -> Option<u64>
    requires { place ≤ 12 }
    ensures value { result ≡ specs.day_minute_at text.now place }
    ensures small { IfSome result (λ minute. minute < 1440) }
{
    let hour = two_up_to(text, place, 23)?;
    let minute = two_up_to(text, place + 3, 59)?;
    if !has(text, place + 2, b':') {
        return None;
    }
    Some(hour * 60 + minute)
}

/// Returns the day of a date at this place, such as `2024/06/01` or `2024-06-01`.
fn date_at(text: &[u8], place: usize) -> Option<u64>
    requires { place ≤ 1 }
    ensures value { result ≡ specs.date_at text.now place }
    ensures small { IfSome result (λ days. days ≤ 4000000) }
{
    let century = two_at(text, place)?;
    let year = two_at(text, place + 2)?;
    let month = two_at(text, place + 5)?;
    let day = two_at(text, place + 8)?;
    if !has_either(text, place + 4, b'/', b'-') || !has_either(text, place + 7, b'/', b'-') {
        return None;
    }
    days_to(100 * century + year, month, day)
}

/// Returns the second at this place, such as `:12`. A leap second is the one after it.
fn second_at(text: &[u8], place: usize) -> Option<u64>
    requires { place ≤ 17 }
    ensures value { result ≡ specs.second_at text.now place }
    ensures small { IfSome result (λ second. second ≤ 60) }
{
    if !has(text, place, b':') {
        return None;
    }
    two_up_to(text, place + 1, 60)
}

/// Returns the fraction of a clock's time at this place, such as `.25` or `,25`. There may be none.
fn clock_fraction_at(text: &[u8], place: usize) -> Stamp
    requires { place ≤ 64 }
    ensures value { result ≡ specs.clock_fraction_at text.now place }
    ensures small { result.time ≤ 999999 }
    ensures end { result.end ≤ 65 + length text.now }
{
    fraction_at(text, place, has_either(text, place, b'.', b','))
}

/// Returns the microseconds of a fraction at this place, such as `.25`. None if no mark is there. Its first six digits
/// count.
fn fraction_at(text: &[u8], place: usize, is_marked: bool) -> Stamp
    requires { place ≤ 64 }
    ensures value { result ≡ specs.fraction_at text.now place is_marked }
    ensures small { result.time ≤ 999999 }
    ensures end { result.end ≤ 65 + length text.now }
{
    if !is_marked {
        return Stamp {
            time: 0,
            end: place,
        };
    }
    let mut time = 0;
    let mut weight = 100_000;
    let mut end = place + 1;
    while let Some(digit) = digit_at(text, end) {
        time += weight * digit;
        weight /= 10;
        end += 1;
    }
    Stamp { time, end }
}

/// Returns the first place from this one on that has no digit.
fn after_digits(text: &[u8], place: usize) -> usize
    ensures value { result ≡ specs.after_digits text.now place }
    ensures start { place ≤ result }
    ensures end { result ≤ place + length text.now }
{
    let mut end = place;
    while end < text.len() && text[end] >= b'0' && text[end] <= b'9' {
        end += 1;
    }
    end
}

/// Returns a local time with its time zone at this place: `Z`, `+01:00`, `-0330` or nothing.
fn zoned(text: &[u8], local: u64, place: usize) -> Option<Stamp>
    requires place { place ≤ 200 }
    requires local { local < 2 ^ 60 }
    ensures value { result ≡ specs.zoned text.now local place }
    ensures end { IfSome result (λ stamp. stamp.end ≤ place + 6) }
{
    if has(text, place, b'Z') {
        return Some(Stamp {
            time: local,
            end: place + 1,
        });
    }
    if !has_either(text, place, b'+', b'-') {
        return Some(Stamp {
            time: local,
            end: place,
        });
    }
    let minutes_at = place + 3 + usize::from(has(text, place + 3, b':'));
    let hours = two_at(text, place + 1)?;
    let minutes = two_up_to(text, minutes_at, 59)?;
    let offset = (hours * 60 + minutes) * 60 * SECOND;
    let time = if has(text, place, b'+') {
        local.checked_sub(offset)?
    } else {
        local + offset
    };
    Some(Stamp {
        time,
        end: minutes_at + 2,
    })
}

/// Returns the time of day that the text begins with, such as `07:58:12.08`, since midnight.
fn time_of_day(text: &[u8]) -> Option<Stamp>
    requires { length text.now ≤ 64 }
    ensures value { result ≡ specs.time_of_day text.now }
    ensures end { IfSome result (λ stamp. stamp.end ≤ 200) }
{
    let minutes = day_minute_at(text, 0)?;
    let second = second_at(text, 5)?;
    let fraction = clock_fraction_at(text, 8);
    Some(Stamp {
        time: (minutes * 60 + second) * SECOND + fraction.time,
        end: fraction.end,
    })
}

/// Returns the time of seconds with a fraction, such as `12.5`, with at most twelve digits before the point, or of
/// milliseconds.
#[tactic(auto, using(std::proofs::lemmas::Bool::Decides::nat_tests, crate::proofs::Fractions::all_lead))]
fn in_number(text: &[u8]) -> Option<Stamp>
    requires { length text.now ≤ 64 }
    ensures value { result ≡ specs.in_number text.now }
    ensures end { IfSome result (λ stamp. stamp.end ≤ 200) }
{
    let end = after_digits(text, 0);
    if end == 0 || end > DIGITS_OF_MILLISECONDS {
        return None;
    }
    let number = number_of(text, end);
    if end == DIGITS_OF_MILLISECONDS {
        return Some(Stamp {
            time: MILLISECOND * number,
            end,
        });
    }
    let rest = fraction_at(text, end, has(text, end, b'.'));
    Some(Stamp {
        time: SECOND * number + rest.time,
        end: rest.end,
    })
}

/// Returns the number of the digits before this place.
fn number_of(text: &[u8], end: usize) -> u64
    requires few { end ≤ 13 }
    requires within { end ≤ length text.now }
    requires digits { (k : ℕ) → k < end → IsTrue (specs.is_digit (slice_index text.now k)) }
    ensures value { result ≡ specs.number_of text.now end }
    ensures small { result < 10 ^ 13 }
{
    let mut number: u64 = 0;
    for place in 0..end {
        number = 10 * number + u64::from(text[place] - b'0');
    }
    number
}
