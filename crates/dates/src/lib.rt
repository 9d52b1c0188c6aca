// Days and years: how long a year is, which year a format takes, and the day and the year after and before.
// The calls here are the clock's and the frame's own; they take whether a format carries the year, and whether it is X.
#![tactic(auto)]

ghost use Rattle.std.specs.Prelude.{◌≡◌, cond, ◌≤◌};
ghost use Rattle.timecode.specs.Formats.{carries_year, days_in, is_x, last_day, year_carried};
ghost use Rattle.timecode.specs.Frames.{length_in, day_after, year_after, year_of_day_after, day_before, year_before, year_of_time_before};
ghost use Rattle.timecode.specs.declared.Format.{Format};

use timecode::{Format, Time};

// Letter X, the XR3 code: its time has day 1 always.
#[tactic(auto, unfolding(timecode::specs::Formats::is_x))]
pub fn is_x(format: Format) -> bool
    ensures { result ≡ is_x format }
{
    format.letter == b'X'
}

// Every fourth year from 2000 has 366 days.
#[tactic(auto, unfolding(timecode::specs::Formats::days_in), using(std::proofs::lemmas::Bool::Decides::nat_tests))]
fn days_in(year: u8) -> u16
    ensures { result ≡ days_in year }
{
    if year % 4 == 0 { 366 } else { 365 }
}

// Number 17: a year that the format takes, 0 where it carries none.
#[tactic(auto, unfolding(timecode::specs::Formats::year_carried), using(std::proofs::lemmas::Bool::Decides::nat_tests))]
pub fn year_carried(carried: bool, year: u8) -> bool
    ensures { (f : Format) → carried ≡ carries_year f → result ≡ year_carried f year }
{
    if carried {
        year <= Time::LAST_YEAR
    } else {
        year == 0
    }
}

// The last day of a year: where the format carries the year, that year's own.
pub fn last_day_in(carried: bool, year: u8) -> u16
    ensures { result ≡ cond carried (days_in year) last_day }
{
    if carried {
        days_in(year)
    } else {
        Time::LAST_DAY
    }
}

// The last day, after which day 1 comes: in X day 1 itself, and else the one that is given.
pub fn turn_day(x: bool, last: u16) -> u16
    ensures { result ≡ cond x 1 last }
{
    if x { Time::FIRST_DAY } else { last }
}

// The length of a year: where the format carries the year, that year's own, and else the one that is given.
#[tactic(auto, unfolding(timecode::specs::Frames::length_in), using(std::proofs::lemmas::Bool::Decides::nat_tests))]
pub fn length_in(carried: bool, year: u8, given: u16) -> u16
    ensures { (f : Format) → carried ≡ carries_year f → result ≡ length_in f year given }
{
    if carried { days_in(year) } else { given }
}

#[tactic(auto, unfolding(timecode::specs::Frames::day_after), using(std::proofs::lemmas::Bool::Decides::nat_tests))]
pub fn day_after(day: u16, length: u16) -> u16
    requires { day ≤ 366 }
    ensures { result ≡ day_after day length }
{
    if day == length {
        Time::FIRST_DAY
    } else {
        day + 1
    }
}

#[tactic(auto, unfolding(timecode::specs::Frames::day_before), using(std::proofs::lemmas::Bool::Decides::nat_tests))]
pub fn day_before(day: u16, length: u16) -> u16
    requires { 1 ≤ day }
    ensures { result ≡ day_before day length }
{
    if day == Time::FIRST_DAY {
        length
    } else {
        day - 1
    }
}

// Year 99 is followed by 0.
#[tactic(auto, unfolding(timecode::specs::Frames::year_after), using(std::proofs::lemmas::Bool::Decides::nat_tests))]
fn year_after(year: u8) -> u8
    requires { year ≤ 99 }
    ensures { result ≡ year_after year }
{
    if year == Time::LAST_YEAR { 0 } else { year + 1 }
}

#[tactic(auto, unfolding(timecode::specs::Frames::year_before), using(std::proofs::lemmas::Bool::Decides::nat_tests))]
fn year_before(year: u8) -> u8
    ensures { result ≡ year_before year }
{
    if year == 0 { Time::LAST_YEAR } else { year - 1 }
}

// The year of the day after: where the format carries it, the next one after the year's last day.
#[tactic(auto, unfolding(timecode::specs::Frames::year_of_day_after), using(std::proofs::lemmas::Bool::Decides::nat_tests))]
pub fn year_of_day_after(carried: bool, time: Time, length: u16) -> u8
    requires { time.year ≤ 99 }
    ensures { (f : Format) → carried ≡ carries_year f → result ≡ year_of_day_after f time length }
{
    if carried && time.day == length {
        year_after(time.year)
    } else {
        time.year
    }
}

// The year of the time before: where the format carries it, the one before at the year's first midnight.
#[tactic(auto, unfolding(timecode::specs::Frames::year_of_time_before), using(std::proofs::lemmas::Bool::Decides::nat_tests))]
pub fn year_of_time_before(carried: bool, time: Time) -> u8
    ensures { (f : Format) → carried ≡ carries_year f → result ≡ year_of_time_before f time }
{
    if carried && time.day == Time::FIRST_DAY && time.hundredths == 0 {
        year_before(time.year)
    } else {
        time.year
    }
}
