// Month and day from day of year, and back; has_day, has_date and day_in are for the calendar of windows too.
#![tactic(auto)]

ghost use Rattle.std.specs.Prelude.{◌≡◌, ◌+◌, ◌≤◌, ◌<◌, length};
ghost use Rattle.calendar.specs.Dates.{is_leap, month_lengths, place_in, day_in, has_day, has_date, date_of, day_of};

use calendar::{Date, Place};
use dates::last_day_in;
use timecode::{Refusal, Time};

fn is_leap(year: u8) -> bool
    ensures { result ≡ is_leap year }
{
    last_day_in(true, year) == Time::LAST_DAY
}

#[tactic(auto, unfolding(calendar::specs::Dates::month_lengths))]
fn month_lengths(year: u8) -> [u16; 12]
    ensures { result ≡ month_lengths year }
{
    let february = if is_leap(year) { 29 } else { 28 };
    [31, february, 31, 30, 31, 30, 31, 31, 30, 31, 30, 31]
}

// The year has that day of year.
#[tactic(auto, unfolding(calendar::specs::Dates::has_day))]
pub fn has_day(year: u8, day: u16) -> bool
    ensures { result ≡ has_day year day }
{
    Time::FIRST_DAY <= day && day <= last_day_in(true, year)
}

// The year has that month and day.
#[tactic(auto, unfolding(calendar::specs::Dates::has_date))]
pub fn has_date(date: Date) -> bool
    ensures { result ≡ has_date date }
{
    1 <= date.month
        && date.month <= 12
        && 1 <= date.day
        && u16::from(date.day) <= month_lengths(date.year)[date.month as usize - 1]
}

// The months that a day of year lies behind.
fn place_in(year: u8, day: u16) -> Place
    ensures { result ≡ place_in (month_lengths year) day }
{
    let mut rest = day;
    for (months, length) in month_lengths(year).iter().enumerate() {
        if rest <= *length {
            return Place { months, day: rest };
        }
        rest -= *length;
    }
    Place {
        months: 12,
        day: rest,
    }
}

// The days of so many months, and a day.
pub fn day_in(year: u8, months: usize, day: u16) -> u16
    requires { (months < 12) × (day ≤ 255) }
    ensures { result ≡ day_in (month_lengths year) months day }
{
    let lengths = month_lengths(year);
    let mut total = 0;
    for length in &lengths[..months] {
        total += *length;
    }
    total + day
}

// Month and day from day of year.
pub fn date_of(year: u8, day: u16) -> Result<Date, Refusal>
    ensures { result ≡ date_of year day }
{
    if year <= Time::LAST_YEAR {
        if has_day(year, day) {
            let place = place_in(year, day);
            let month = 1 + place.months;
            let rest = place.day;
            return Ok(Date {
                year: year,
                month: month as u8,
                day: rest as u8,
            });
        }
        return Err(Refusal::InvalidDate);
    }
    Err(Refusal::InvalidYear)
}

// Day of year from month and day.
pub fn day_of(date: Date) -> Result<u16, Refusal>
    ensures { result ≡ day_of date }
{
    if date.year <= Time::LAST_YEAR {
        if has_date(date) {
            let month = date.month as usize;
            let day = date.day as u16;
            return Ok(day_in(date.year, month - 1, day));
        }
        return Err(Refusal::InvalidDate);
    }
    Err(Refusal::InvalidYear)
}
