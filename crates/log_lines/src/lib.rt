// The lines of timelog: a report as timeread prints it, with the year where timeread has the number of the element; and the report of such a line.
#![tactic(auto)]

ghost use Rattle.std.specs.Prelude.{◌≡◌, ◌≤◌, ◌<◌, length, take, IfSome};
ghost use Rattle.lines.specs.Text.{report_line};
ghost use Rattle.report_log.specs.Log.{no_report};

use arguments::{decimal_in, hexadecimal_in};
use lines::report_line;
use report_log::Report;
use timecode::Time;

// How long the day, the clock and the control word are, each with the space before it.
const BEHIND: usize = 29;

// Before the first report of a log all fields count as 0.
pub fn no_report() -> Report
    ensures { result ≡ no_report }
{
    Report {
        time: Time {
            year: 0,
            day: 0,
            hundredths: 0,
        },
        control: 0,
    }
}

// The line of a report: how many bytes of the lent line it is.
pub fn log_line(line: &mut [u8; 64], report: Report) -> usize
    ensures { (result ≤ 64) × (length line.new ≡ 64) × (take result line.new ≡ report_line report.time.year report.time report.control) }
{
    report_line(
        line,
        u64::from(report.time.year),
        report.time,
        report.control,
    )
}

// A part of the clock, which has two digits.
fn two_digits(text: &[u8]) -> Option<u32>
    ensures { IfSome result (λ part. part < 100) }
{
    decimal_in(text).map(|number| (number % 100) as u32)
}

// Hundredths of a second since midnight: the added second follows from the second 60.
fn hundredths_in(clock: &[u8; 11]) -> Option<u32> {
    let hour = two_digits(&clock[0..2])?;
    let minute = two_digits(&clock[3..5])?;
    let second = two_digits(&clock[6..8])?;
    let hundredth = two_digits(&clock[9..11])?;
    Some(((hour * 60 + minute) * 60 + second) * 100 + hundredth)
}

// A line's first number, and a report with that year and what else the line says.
#[derive(Clone, Copy, PartialEq, Eq)]
pub struct LineRead {
    pub number: u64,
    pub report: Report,
}

// The report of a line without its newline; nothing for any other line. Every part is read, and then the line that they make is compared.
pub fn report_in(text: &[u8]) -> Option<LineRead> {
    let (first, behind) = text.split_last_chunk::<BEHIND>()?;
    let number = decimal_in(first)?;
    let report = Report {
        time: Time {
            // A number that no byte has becomes 255, which is no year either.
            year: u8::try_from(number).unwrap_or(u8::MAX),
            day: u16::try_from(decimal_in(&behind[1..4])?).ok()?,
            hundredths: hundredths_in(behind[5..16].first_chunk()?)?,
        },
        control: hexadecimal_in(&behind[17..29])?,
    };
    let mut line = [0u8; 64];
    let filled = report_line(&mut line, number, report.time, report.control);
    if filled == text.len() + 1 && line.starts_with(text) {
        Some(LineRead { number, report })
    } else {
        None
    }
}
