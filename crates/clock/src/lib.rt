// Times: whether one lies on a format, Step, step back, next after, and Difference.
#![tactic(auto)]

ghost use Rattle.std.specs.Prelude.{◌≡◌, true, cond, ◌&&◌, ℕ, Ok, Err, ◌+◌, ◌*◌, ◌%◌, ◌<◌, ◌≤◌, ltb, eqb, pos, ◌-ℤ◌};
ghost use Rattle.timecode.specs.Answers.{check};
ghost use Rattle.timecode.specs.Calls.{difference_of};
ghost use Rattle.timecode.specs.Formats.{known, day_length, in_range, year_carried, on_format, second_carried};
ghost use Rattle.timecode.specs.Frames.{in_year, kinds, day_end, on_day, following, check_step, step_of, same_time, steps_to, any, next_after, preceding, step_back_of};
ghost use Rattle.timecode.specs.declared.Refusal.TheVariants.{InvalidYearLength, InvalidKind};

use dates::{
    day_after, day_before, is_x, last_day_in, length_in, turn_day, year_carried, year_of_day_after,
    year_of_time_before,
};
use layout::{carries_leap, carries_year, frame_interval, is_known};
use timecode::{Format, Refusal, Time};

// The day is at most the last one, and both day and hundredths are in range.
#[tactic(auto, unfolding(timecode::specs::Formats::in_range), using(std::proofs::lemmas::Bool::Decides::nat_tests))]
fn in_range(last: u16, time: Time) -> bool
    ensures { result ≡ in_range last time }
{
    Time::FIRST_DAY <= time.day && time.day <= last && time.hundredths <= Time::LAST_HUNDREDTH
}

// The time is in range, up to the last day of its year, and the frame interval divides its hundredths.
pub fn lies_on(interval: u32, last: u16, time: Time) -> bool
    requires { 1 ≤ interval }
    ensures { result ≡ (in_range last time && eqb (time.hundredths % interval) 0) }
{
    in_range(last, time) && time.hundredths % interval == 0
}

#[tactic(auto, unfolding(timecode::specs::Formats::on_format, timecode::specs::Formats::last_day_in))]
fn on_format(format: Format, time: Time) -> bool
    ensures { result ≡ on_format format time }
{
    let last = turn_day(is_x(format), last_day_in(carries_year(format), time.year));
    lies_on(frame_interval(format), last, time)
}

fn year_on_format(format: Format, time: Time) -> bool
    ensures { result ≡ year_carried format time.year }
{
    year_carried(carries_year(format), time.year)
}

// The time is not in the added second, or the leap second is carried.
pub fn second_allowed(leap: bool, time: Time) -> bool
    ensures { result ≡ cond leap true (ltb time.hundredths day_length) }
{
    leap || time.hundredths < Time::DAY_LENGTH
}

#[tactic(auto, unfolding(timecode::specs::Formats::second_carried))]
fn second_carried(format: Format, time: Time) -> bool
    ensures { result ≡ second_carried format time }
{
    second_allowed(carries_leap(format), time)
}

// The year's length is 365 or 366, and the day is not beyond it.
#[tactic(auto, unfolding(timecode::specs::Frames::in_year), using(std::proofs::lemmas::Bool::Decides::nat_tests))]
fn in_year(time: Time, length: u16) -> bool
    ensures { result ≡ in_year time length }
{
    (length == 365 || length == 366) && time.day <= length
}

// Where a day of that kind ends; a format that does not carry the leap second goes on as usual.
#[tactic(auto, unfolding(timecode::specs::Frames::day_end, timecode::specs::Frames::day_length_of), using(std::proofs::lemmas::Bool::Decides::nat_tests))]
fn day_end(format: Format, kind: u8) -> u32
    ensures { result ≡ day_end format kind }
{
    if !carries_leap(format) {
        return Time::DAY_LENGTH;
    }
    match kind {
        Time::SECOND_ADDED => Time::ADDED_DAY_LENGTH,
        Time::SECOND_TAKEN => Time::TAKEN_DAY_LENGTH,
        _ => Time::DAY_LENGTH,
    }
}

// The kind is one of the three, and the time is not past the end of a day of that kind.
fn on_day(format: Format, time: Time, kind: u8) -> bool
    ensures { result ≡ on_day format time kind }
{
    kind <= Time::SECOND_TAKEN && time.hundredths < day_end(format, kind)
}

// The time one frame interval later, in a year of that length and after a day of that kind.
fn later(format: Format, time: Time, length: u16, kind: u8) -> Time
    requires { (on_format format time ≡ true) × (second_carried format time ≡ true) × (year_carried format time.year ≡ true) }
    ensures { result ≡ following format time length kind }
{
    let hundredths = time.hundredths + frame_interval(format);
    if hundredths != day_end(format, kind) {
        return Time { hundredths, ..time };
    }
    Time {
        year: year_of_day_after(carries_year(format), time, length),
        day: day_after(time.day, turn_day(is_x(format), length)),
        hundredths: 0,
    }
}

// The time one frame interval earlier; it belongs to a year of that length and to a day of that kind.
fn earlier(format: Format, time: Time, length: u16, kind: u8) -> Time
    requires { (on_format format time ≡ true) × (second_carried format time ≡ true) × (year_carried format time.year ≡ true) }
    ensures { result ≡ preceding format time length kind }
{
    let interval = frame_interval(format);
    if time.hundredths != 0 {
        return Time {
            hundredths: time.hundredths - interval,
            ..time
        };
    }
    Time {
        year: year_of_time_before(carries_year(format), time),
        day: day_before(time.day, turn_day(is_x(format), length)),
        hundredths: day_end(format, kind) - interval,
    }
}

// The time itself, where the year's length and the day's kind are right for it.
fn check_day(format: Format, time: Time, length: u16, kind: u8) -> Result<Time, Refusal>
    ensures { result ≡ check Err InvalidYearLength (in_year time length) (check Err InvalidKind (on_day format time kind) (Ok time)) }
{
    if !in_year(time, length) {
        return Err(Refusal::InvalidYearLength);
    }
    if !on_day(format, time, kind) {
        return Err(Refusal::InvalidKind);
    }
    Ok(time)
}

// The checks of both steps, in a year of that length: the time itself, where it passes them.
fn check_step(format: Format, time: Time, length: u16, kind: u8) -> Result<Time, Refusal>
    ensures { result ≡ check_step format time length kind (Ok time) }
{
    if !is_known(format) {
        return Err(Refusal::UnknownFormat);
    }
    if !year_on_format(format, time) {
        return Err(Refusal::InvalidYear);
    }
    if !on_format(format, time) {
        return Err(Refusal::InvalidTime);
    }
    if !second_carried(format, time) {
        return Err(Refusal::SecondNotCarried);
    }
    check_day(format, time, length, kind)
}

// The kind is that of the given time's day. Where the format carries the year, the length is its own and not the given one.
pub fn step(format: Format, time: Time, given: u16, kind: u8) -> Result<Time, Refusal>
    ensures { result ≡ step_of format time given kind }
{
    let length = length_in(carries_year(format), time.year, given);
    check_step(format, time, length, kind)?;
    Ok(later(format, time, length, kind))
}

// The year and the kind are those of the time before; the checks look at the time that is given.
pub fn step_back(format: Format, time: Time, given: u16, kind: u8) -> Result<Time, Refusal>
    ensures { result ≡ step_back_of format time given kind }
{
    let carried = carries_year(format);
    let length = length_in(carried, year_of_time_before(carried, time), given);
    check_step(format, time, length, kind)?;
    Ok(earlier(format, time, length, kind))
}

fn leads_to(stepped: Result<Time, Refusal>, time: Time) -> bool
    ensures { result ≡ steps_to stepped time }
{
    stepped == Ok(time)
}

// In a year of that length, without a known kind: one of the three gives it.
fn next_in_year(format: Format, first: Time, second: Time, length: u16) -> bool
    ensures { result ≡ any (λ kind. steps_to (step_of format first length kind) second) kinds }
{
    leads_to(step(format, first, length, Time::USUAL_DAY), second)
        || leads_to(step(format, first, length, Time::SECOND_ADDED), second)
        || leads_to(step(format, first, length, Time::SECOND_TAKEN), second)
}

// Without a known length: one of the two gives it. Where the format carries the year, both give what its own does.
#[tactic(auto, unfolding(timecode::specs::Frames::next_after))]
pub fn next_after(format: Format, first: Time, second: Time) -> bool
    ensures { result ≡ next_after format first second }
{
    next_in_year(format, first, second, 365) || next_in_year(format, first, second, 366)
}

// Hundredths since the start of day 0.
fn total(time: Time) -> u64
    ensures { (result ≡ time.day * 8640000 + time.hundredths) × (result < 1000000000000) }
{
    u64::from(time.day) * u64::from(Time::DAY_LENGTH) + u64::from(time.hundredths)
}

fn minus(first: u64, second: u64) -> i64
    requires { (first < 1000000000000) × (second < 1000000000000) }
    ensures { result ≡ pos first -ℤ pos second }
{
    first as i64 - second as i64
}

// The first time less the second, within one year, in signed hundredths. It passes over the years.
#[tactic(auto, unfolding(timecode::specs::Calls::difference_of))]
pub fn difference(first: Time, second: Time) -> Result<i64, Refusal>
    ensures { result ≡ difference_of first second }
{
    if in_range(Time::LAST_DAY, first) && in_range(Time::LAST_DAY, second) {
        Ok(minus(total(first), total(second)))
    } else {
        Err(Refusal::InvalidTime)
    }
}
