// What the calendar of test windows takes and what it answers: types only, no function.
// Dates, moments, windows and a calendar's answers are defined, and their theorems stand, in specs/.
#![tactic(auto)]

use timecode::{Refusal, Time};

// A day by its month: the year after 2000, the month from 1 and the day of the month from 1.
#[repr(C)]
#[derive(Clone, Copy, PartialEq, Eq, Default)]
pub struct Date {
    pub year: u8,
    pub month: u8,
    pub day: u8,
}

// A date and hundredths of a second since its midnight.
#[repr(C)]
#[derive(Clone, Copy, PartialEq, Eq)]
pub struct DateTime {
    pub date: Date,
    pub hundredths: u32,
}

// Whole months of a year, and a day of the next.
#[derive(Clone, Copy, PartialEq, Eq)]
pub struct Place {
    pub months: usize,
    pub day: u16,
}

// From a start, which belongs to it, to an end, which does not.
#[derive(Clone, Copy, PartialEq, Eq)]
pub struct Window {
    pub start: Time,
    pub end: Time,
}

// The windows added, the first of them at 0, each moment as one number, its key: the arrays are lent to one loop that compares
// whole moments. Behind the count they hold what they did.
#[repr(C)]
#[derive(Clone, Copy, PartialEq, Eq)]
pub struct Calendar {
    pub count: usize,
    pub starts: [u64; 32],
    pub ends: [u64; 32],
}

impl Calendar {
    pub const MOST_WINDOWS: usize = 32;

    // a key is below it: 8 bits of year, 16 of day, 32 of hundredths
    pub const KEY_LIMIT: u64 = 72_057_594_037_927_936;
}

// A window by its keys: its start's and its end's.
#[derive(Clone, Copy, PartialEq, Eq)]
pub struct WindowKeys {
    pub start: u64,
    pub end: u64,
}

// Adding: the calendar handed back, and whether the window was taken.
#[derive(Clone, Copy, PartialEq, Eq)]
pub struct Added {
    pub calendar: Calendar,
    pub answer: Result<(), Refusal>,
}

// Which windows hold a time, bit 0 the first added, and the next start or end after it.
#[derive(Clone, Copy, PartialEq, Eq)]
pub struct Asked {
    pub mask: u32,
    pub next: Option<Time>,
}
