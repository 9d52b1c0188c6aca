// What a caller asks before it lends memory or prints: a format's elements, interval and number of control bits, and hour, minute, second and hundredth of a time.
// Both answers are C's structs, by value: the number of the refusal or 0 first; where it is not 0, every other field is 0.
#![tactic(auto)]

ghost use Rattle.std.specs.Prelude.{◌≡◌, cond, ◌≤◌, ◌<◌};
ghost use Rattle.layout.specs.Tables.{is_carried};
ghost use Rattle.timecode.specs.Formats.{last_day, last_hundredth, in_range};
ghost use Rattle.figures.specs.Figures.{format_figures_of, time_of_day_of, clock_of};
ghost use Rattle.figures.specs.Ranges.{control_in};

use layout::{CONTROL_1, CONTROL_2, CONTROL_3, CONTROL_4, CONTROL_5, is_carried, row_of, takes};
use refusals::number_of;
use timecode::{Format, Refusal, Time};

// The elements of a frame, the frame interval in hundredths and how many control bits are carried.
#[repr(C)]
#[derive(Clone, Copy, PartialEq, Eq)]
pub struct FormatFiguresResult {
    pub number: u8,
    pub control_bits: u8,
    pub interval: u32,
    pub elements: usize,
}

// 23:59:60 in a second that was added to the day.
#[repr(C)]
#[derive(Clone, Copy, PartialEq, Eq)]
pub struct TimeOfDayResult {
    pub number: u8,
    pub hour: u8,
    pub minute: u8,
    pub second: u8,
    pub hundredth: u8,
}

// The bits of one range of control bits: nine, or none where it is not carried.
fn bits_in(runs: u32, run: usize) -> u8
    requires { run < 20 }
    ensures { (result ≡ cond (is_carried runs run) 9 0) × (result ≤ 9) }
{
    if is_carried(runs, run) { 9 } else { 0 }
}

fn control_bits(runs: u32) -> u8
    ensures { result ≡ control_in runs }
{
    bits_in(runs, CONTROL_1)
        + bits_in(runs, CONTROL_2)
        + bits_in(runs, CONTROL_3)
        + bits_in(runs, CONTROL_4)
        + bits_in(runs, CONTROL_5)
}

pub fn format_figures(format: Format) -> FormatFiguresResult
    ensures { result ≡ format_figures_of format }
{
    let row = row_of(format);
    if takes(row, format.expression) {
        FormatFiguresResult {
            number: 0,
            control_bits: control_bits(row.runs),
            interval: row.interval,
            elements: row.elements,
        }
    } else {
        FormatFiguresResult {
            number: number_of(Refusal::UnknownFormat),
            control_bits: 0,
            interval: 0,
            elements: 0,
        }
    }
}

#[tactic(auto, unfolding(timecode::specs::Formats::in_range))]
fn in_range(time: Time) -> bool
    ensures { result ≡ in_range last_day time }
{
    Time::FIRST_DAY <= time.day
        && time.day <= Time::LAST_DAY
        && time.hundredths <= Time::LAST_HUNDREDTH
}

// The added second is one more than the second before it.
fn clock_of(hundredths: u32) -> TimeOfDayResult
    requires { hundredths ≤ last_hundredth }
    ensures { result ≡ clock_of hundredths }
{
    let added = hundredths / Time::DAY_LENGTH;
    let usual = hundredths / 100 - added;
    TimeOfDayResult {
        number: 0,
        hour: (usual / 60 / 60) as u8,
        minute: (usual / 60 % 60) as u8,
        second: (usual % 60 + added) as u8,
        hundredth: (hundredths % 100) as u8,
    }
}

pub fn time_of_day(time: Time) -> TimeOfDayResult
    ensures { result ≡ time_of_day_of time }
{
    if in_range(time) {
        clock_of(time.hundredths)
    } else {
        TimeOfDayResult {
            number: number_of(Refusal::InvalidTime),
            hour: 0,
            minute: 0,
            second: 0,
            hundredth: 0,
        }
    }
}
