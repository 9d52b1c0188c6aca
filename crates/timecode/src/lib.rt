// What the calls of the time code engine take and what they answer: types only, no function. A format, a time and width settings are C's structs too.
// Document 01 and of document 02 the step back, the leap second, XR3 tapes, the width settings, the year and the setting k as definitions, and the theorems over them, stand in specs/.
#![tactic(auto)]

// A rate letter, in capital ASCII, and a coded expression.
#[repr(C)]
#[derive(Clone, Copy, PartialEq, Eq)]
pub struct Format {
    pub letter: u8,
    pub expression: u8,
}

// Document 01's symbols: a zero or an index marker, a one, a mark, and a spoiled element, the highest.
pub const ZERO: u8 = 0;

pub const ONE: u8 = 1;

pub const MARK: u8 = 2;

pub const SPOILED: u8 = 3;

// The year, 0 to 99 for 2000 to 2099 and 0 in a format without one; the day of the year; and document 01's c: hundredths of a second since midnight.
#[repr(C)]
#[derive(Clone, Copy, PartialEq, Eq, Default)]
pub struct Time {
    pub year: u8,
    pub day: u16,
    pub hundredths: u32,
}

impl Time {
    pub const LAST_YEAR: u8 = 99;

    pub const FIRST_DAY: u16 = 1;

    pub const LAST_DAY: u16 = 366;

    // the last of a day with a second added
    pub const LAST_HUNDREDTH: u32 = 8_640_099;
    // the hundredths of a usual day
    pub const DAY_LENGTH: u32 = 8_640_000;
    // those of a day with a second added, and of one with a second taken
    pub const ADDED_DAY_LENGTH: u32 = 8_640_100;

    pub const TAKEN_DAY_LENGTH: u32 = 8_639_900;
    // the kinds of a day: 86,400 seconds, 86,401 or 86,399
    pub const USUAL_DAY: u8 = 0;

    pub const SECOND_ADDED: u8 = 1;

    pub const SECOND_TAKEN: u8 = 2;
}

// How far the widths of zeros, ones and marks may lie from their centres, in percent of the nominal interval.
#[repr(C)]
#[derive(Clone, Copy, PartialEq, Eq)]
pub struct WidthSettings {
    pub zeros: u8,
    pub ones: u8,
    pub marks: u8,
}

impl WidthSettings {
    pub const NARROWEST: u8 = 1;

    pub const WIDEST: u8 = 14;
}

// A class of widths: its symbol, and in percent of the nominal interval its centre and the setting, how far from the centre it reaches.
#[derive(Clone, Copy, PartialEq, Eq)]
pub struct WidthClass {
    pub symbol: u8,
    pub centre: u8,
    pub setting: u8,
}

// A pulse: its symbol, and 100 times its width less its class's centre times the interval; 0 for a spoiled element.
#[derive(Clone, Copy, PartialEq, Eq)]
pub struct Pulse {
    pub symbol: u8,
    pub deviation: i32,
}

// Document 01's thirteen numbers and document 02's from 14 on, in their order. With 5 and 6 goes the index of the element, with 25 that of the cycle.
#[derive(Clone, Copy, PartialEq, Eq)]
pub enum Refusal {
    UnknownFormat,
    InvalidTime,
    WrongLength,
    UnknownSymbol,
    MisplacedMark(usize),
    InvalidElement(usize),
    InvalidDigit,
    SecondsDiffer,
    ControlTooLong,
    InvalidInterval,
    InvalidYearLength,
    StartPastEnd,
    InvalidReader,
    SecondNotCarried,
    InvalidKind,
    InvalidWidthSetting,
    InvalidYear,
    YearPlaceTaken,
    RecordCutShort,
    InvalidRecord,
    InvalidWindow,
    InvalidDate,
    InvalidForecast,
    InvalidCycleCount,
    UnknownCycle(usize),
    InvalidSetting,
    InvalidListener,
}

// What a frame says: its time and its control word. Read gives it.
#[derive(Clone, Copy, PartialEq, Eq)]
pub struct Reading {
    pub time: Time,
    pub control: u64,
}

// Where a frame begins in a recording, and what it says. Scan gives it.
#[derive(Clone, Copy, PartialEq, Eq)]
pub struct Found {
    pub start: usize,
    pub reading: Reading,
}

// Feed: what one symbol brought. Document 01 asks for this enum, with the time in its report and the refusal in its last case.
#[derive(Clone, Copy, PartialEq, Eq)]
pub enum Answer {
    Quiet,
    Report { time: Time, control: u64 },
    Refused(Refusal),
}
