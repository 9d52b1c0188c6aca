// The calendar of test windows: an empty one, adding a window, and asking which windows hold a time and what follows it.
// Every calendar is taken: a count over 32 counts as 32, and of each number kept only the 56 bits of a key count.
#![tactic(auto)]

ghost use Rattle.std.specs.Prelude.{◌≡◌, cond, true, false, ◌+◌, ◌*◌, ◌%◌, ◌≤◌, ◌<◌, ltb, length, take, set};
ghost use Rattle.calendar.specs.Dates.{has_date};
ghost use Rattle.calendar.specs.Keys.{Small};
ghost use Rattle.calendar.specs.Moments.{ask_of};
ghost use Rattle.calendar.specs.Windows.{key_of, time_of, windows_in, windows_of, moment_of, window_of, keyed_by, add_answer, add_of, empty_calendar};
ghost use Rattle.windows.specs.Asking.{limited, sooner, next_key, mask_keys, following_of};
ghost use Rattle.windows.specs.Ways.{days_answer, hundredths_answer, dates_answer, window_answer};

use calendar::{Added, Asked, Calendar, DateTime, Window, WindowKeys};
use months::{day_in, has_date, has_day};
use timecode::{Refusal, Time};

// Of the windows looked at: which hold the time, and the key of the next start or end.
#[derive(Clone, Copy)]
pub struct Seen {
    pub mask: u32,
    pub next: u64,
}

// above every key
const NO_KEY: u64 = 18_446_744_073_709_551_615;

// The key of a moment, whose fields fit their places in it.
fn key_of(time: Time) -> u64
    ensures { (result ≡ key_of time) × Small time }
{
    let year = time.year as u64;
    let day = time.day as u64;
    let hundredths = time.hundredths as u64;
    (year * 65_536 + day) * 4_294_967_296 + hundredths
}

fn time_of(key: u64) -> Time
    ensures { result ≡ time_of key }
{
    let high = key / 4_294_967_296;
    Time {
        year: (high / 65_536 % 256) as u8,
        day: (high % 65_536) as u16,
        hundredths: (key % 4_294_967_296) as u32,
    }
}

fn following(key: u64) -> Option<Time>
    ensures { result ≡ following_of key }
{
    if key == NO_KEY {
        return None;
    }
    Some(time_of(key))
}

// The sooner of a start or end and the best so far; one that is not after the time does not count.
fn sooner_of(key: u64, edge: u64, best: u64) -> u64
    ensures { result ≡ sooner key edge best }
{
    if key < edge { edge.min(best) } else { best }
}

fn is_held(key: u64, start: u64, end: u64) -> bool
    ensures { result ≡ cond (ltb key start) false (ltb key end) }
{
    start <= key && key < end
}

fn with_bit(mask: u32, held: bool) -> u32
    requires { mask < 2147483648 }
    ensures { result ≡ cond held 1 0 + 2 * mask }
{
    u32::from(held) + 2 * mask
}

fn limit(count: usize) -> usize
    ensures { (result ≡ limited count) × (result ≤ 32) }
{
    count.min(Calendar::MOST_WINDOWS)
}

// The windows from the last to the first, so that the first comes to stand in bit 0.
fn look(starts: &[u64], ends: &[u64], count: usize, key: u64) -> Seen
    requires { (length starts.now ≡ 32) × (length ends.now ≡ 32) × (count ≤ 32) }
    ensures { (result.mask ≡ mask_keys key (take count starts.now) (take count ends.now)) × (result.next ≡ next_key key (take count starts.now) (take count ends.now)) }
{
    let mut mask = 0;
    let mut next = NO_KEY;
    for i in (0..count).rev() {
        let start = starts[i] % Calendar::KEY_LIMIT;
        let end = ends[i] % Calendar::KEY_LIMIT;
        next = sooner_of(key, start, sooner_of(key, end, next));
        mask = with_bit(mask, is_held(key, start, end));
    }
    Seen { mask, next }
}

// Which windows of so many, lent as their keys, hold a time, and the next start or end after it.
pub fn ask_keys(count: usize, starts: &[u64], ends: &[u64], time: Time) -> Result<Asked, Refusal>
    requires { (length starts.now ≡ 32) × (length ends.now ≡ 32) }
    ensures { result ≡ ask_of (windows_in (take count starts.now) (take count ends.now)) time }
{
    if time.year <= Time::LAST_YEAR {
        if time.hundredths <= Time::LAST_HUNDREDTH {
            if has_day(time.year, time.day) {
                let seen = look(starts, ends, limit(count), key_of(time));
                return Ok(Asked {
                    mask: seen.mask,
                    next: following(seen.next),
                });
            }
            return Err(Refusal::InvalidDate);
        }
        return Err(Refusal::InvalidTime);
    }
    Err(Refusal::InvalidYear)
}

// Which windows hold a time, and the next start or end after it.
pub fn ask(calendar: Calendar, time: Time) -> Result<Asked, Refusal>
    ensures { result ≡ ask_of (windows_of calendar) time }
{
    ask_keys(calendar.count, &calendar.starts, &calendar.ends, time)
}

// A calendar to which nothing was added.
pub fn empty() -> Calendar
    ensures { result ≡ empty_calendar }
{
    Calendar {
        count: 0,
        starts: [0; 32],
        ends: [0; 32],
    }
}

// 22: both dates.
fn check_days(start: DateTime, end: DateTime) -> Result<(), Refusal>
    ensures { result ≡ days_answer start end }
{
    if has_date(start.date) {
        if has_date(end.date) {
            return Ok(());
        }
    }
    Err(Refusal::InvalidDate)
}

// 2, then 22: both hundredths, then both dates.
fn check_hundredths(start: DateTime, end: DateTime) -> Result<(), Refusal>
    ensures { result ≡ hundredths_answer start end }
{
    if start.hundredths <= Time::LAST_HUNDREDTH {
        if end.hundredths <= Time::LAST_HUNDREDTH {
            return check_days(start, end);
        }
    }
    Err(Refusal::InvalidTime)
}

// 17, 2, 22: both years, both hundredths, both dates.
fn check_dates(start: DateTime, end: DateTime) -> Result<(), Refusal>
    ensures { result ≡ dates_answer start end }
{
    if start.date.year <= Time::LAST_YEAR {
        if end.date.year <= Time::LAST_YEAR {
            return check_hundredths(start, end);
        }
    }
    Err(Refusal::InvalidYear)
}

// The moment of a date that its year has.
fn moment_of(at: DateTime) -> Time
    requires { has_date at.date ≡ true }
    ensures { result ≡ moment_of at }
{
    let date = at.date;
    let month = date.month as usize;
    let day = date.day as u16;
    Time {
        year: date.year,
        day: day_in(date.year, month - 1, day),
        hundredths: at.hundredths,
    }
}

// 21: the keys of a window behind so many others.
fn keys_of(count: usize, window: Window) -> Result<WindowKeys, Refusal>
    ensures { result ≡ keyed_by (window_answer count window) window }
{
    let start = key_of(window.start);
    let end = key_of(window.end);
    if count < Calendar::MOST_WINDOWS {
        if start < end {
            return Ok(WindowKeys { start, end });
        }
    }
    Err(Refusal::InvalidWindow)
}

// 17, 2, 22, 21: the keys of a window from a date and hundredth to another, behind so many others.
pub fn book(count: usize, start: DateTime, end: DateTime) -> Result<WindowKeys, Refusal>
    ensures { result ≡ keyed_by (add_answer count start end) (window_of start end) }
{
    check_dates(start, end)?;
    let window = Window {
        start: moment_of(start),
        end: moment_of(end),
    };
    keys_of(count, window)
}

// The keys behind the others.
fn with_keys(calendar: Calendar, start: u64, end: u64) -> Calendar
    requires { calendar.count < 32 }
    ensures { result ≡ record { count = calendar.count + 1; starts = set calendar.starts calendar.count start; ends = set calendar.ends calendar.count end } }
{
    let count = calendar.count;
    let mut next = calendar;
    next.starts[count] = start;
    next.ends[count] = end;
    next.count = count + 1;
    next
}

// Adds a window from a date and hundredth to another; a refusal hands back the calendar as it was.
pub fn add(calendar: Calendar, start: DateTime, end: DateTime) -> Added
    ensures { result ≡ add_of calendar start end }
{
    let keyed = book(calendar.count, start, end);
    match keyed {
        Ok(WindowKeys { start, end }) => Added {
            calendar: with_keys(calendar, start, end),
            answer: Ok(()),
        },
        Err(refusal) => Added {
            calendar: calendar,
            answer: Err(refusal),
        },
    }
}
