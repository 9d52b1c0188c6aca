// The calendar of test windows for C: a calendar as 65 words in the caller's memory, its count, 32 starts and 32 ends, and the answers as structs by value.
// Any words are allowed. That each struct has its answer's number and values, and what adding leaves in the words, stands in specs/.
#![tactic(auto)]

ghost use Rattle.std.specs.Prelude.{◌≡◌, ◌+◌, ◌<◌, length, set};
ghost use Rattle.calendar.specs.Dates.{date_of, day_of};
ghost use Rattle.calendar.specs.Moments.{ask_of};
ghost use Rattle.calendar.specs.Windows.{windows_of, add_of, empty_calendar};
ghost use Rattle.ffi.specs.Structs.{write_result_of};
ghost use Rattle.calendar_words.specs.CalendarStructs.{calendar_in, words_of, date_result_of, day_result_of, ask_result_of, windows_result};

use calendar::{Asked, Date, DateTime, WindowKeys};
use ffi::WriteResult;
use refusals::number_of;
use timecode::{Refusal, Time};
use windows::{ask_keys, book};

#[repr(C)]
#[derive(Clone, Copy, PartialEq, Eq, Default)]
pub struct DateResult {
    pub number: u8,
    pub date: Date,
}

#[repr(C)]
#[derive(Clone, Copy, PartialEq, Eq, Default)]
pub struct DayResult {
    pub number: u8,
    pub day: u16,
}

// follows: 1 where a start or end follows the time, 0 where none does.
#[repr(C)]
#[derive(Clone, Copy, PartialEq, Eq, Default)]
pub struct AskResult {
    pub number: u8,
    pub follows: u8,
    pub mask: u32,
    pub next: Time,
}

impl From<Result<Date, Refusal>> for DateResult {
    ghost from_gives = { λ dated r. r ≡ date_result_of dated };

    fn from(dated: Result<Date, Refusal>) -> DateResult {
        match dated {
            Ok(date) => DateResult { number: 0, date },
            Err(refusal) => DateResult {
                number: number_of(refusal),
                ..DateResult::default()
            },
        }
    }
}

impl From<Result<u16, Refusal>> for DayResult {
    ghost from_gives = { λ counted r. r ≡ day_result_of counted };

    fn from(counted: Result<u16, Refusal>) -> DayResult {
        match counted {
            Ok(day) => DayResult { number: 0, day },
            Err(refusal) => DayResult {
                number: number_of(refusal),
                day: 0,
            },
        }
    }
}

fn windows_result(mask: u32, next: Option<Time>) -> AskResult
    ensures { result ≡ windows_result mask next }
{
    match next {
        Some(time) => AskResult {
            number: 0,
            follows: 1,
            mask,
            next: time,
        },
        None => AskResult {
            mask,
            ..AskResult::default()
        },
    }
}

impl From<Result<Asked, Refusal>> for AskResult {
    ghost from_gives = { λ answer r. r ≡ ask_result_of answer };

    fn from(answer: Result<Asked, Refusal>) -> AskResult {
        match answer {
            Ok(Asked { mask, next }) => windows_result(mask, next),
            Err(refusal) => AskResult {
                number: number_of(refusal),
                ..AskResult::default()
            },
        }
    }
}

// A calendar to which nothing was added: every word is 0.
pub fn put_empty(calendar: &mut [u64; 65]) -> WriteResult
    ensures number_value { result.number ≡ 0 }
    ensures calendar_after { calendar.new ≡ words_of empty_calendar }
{
    *calendar = [0; 65];
    WriteResult { number: 0 }
}

// The keys of a window behind so many others.
fn put_keys(words: &mut [u64], count: usize, start: u64, end: u64)
    requires { (length words.old ≡ 65) × (count < 32) }
    ensures { words.new ≡ set (set (set words.old (1 + count) start) (33 + count) end) 0 (count + 1) }
{
    words[1 + count] = start;
    words[33 + count] = end;
    words[0] = (count + 1) as u64;
}

fn add_words(words: &mut [u64], start: DateTime, end: DateTime) -> WriteResult
    requires { length words.old ≡ 65 }
    ensures value { result ≡ write_result_of (add_of (calendar_in words.old) start end).answer }
    ensures words_after { words.new ≡ words_of (add_of (calendar_in words.old) start end).calendar }
{
    let count = words[0] as usize;
    let keyed = book(count, start, end);
    match keyed {
        Ok(WindowKeys { start, end }) => {
            put_keys(words, count, start, end);
            WriteResult { number: 0 }
        }
        Err(refusal) => WriteResult {
            number: number_of(refusal),
        },
    }
}

// Adds a window to the calendar in the caller's words: its keys behind the others, or, where it is refused, nothing.
pub fn add_to(calendar: &mut [u64; 65], start: DateTime, end: DateTime) -> WriteResult
    ensures value { result ≡ write_result_of (add_of (calendar_in calendar.old) start end).answer }
    ensures calendar_after { calendar.new ≡ words_of (add_of (calendar_in calendar.old) start end).calendar }
{
    add_words(calendar, start, end)
}

fn ask_words(words: &[u64], time: Time) -> Result<Asked, Refusal>
    requires { length words.now ≡ 65 }
    ensures { result ≡ ask_of (windows_of (calendar_in words.now)) time }
{
    let starts = &words[1..33];
    let ends = &words[33..65];
    ask_keys(words[0] as usize, starts, ends, time)
}

// Asks the calendar in the caller's words.
pub fn ask_in(calendar: &[u64; 65], time: Time) -> AskResult
    ensures { result ≡ ask_result_of (ask_of (windows_of (calendar_in calendar.now)) time) }
{
    AskResult::from(ask_words(calendar, time))
}
