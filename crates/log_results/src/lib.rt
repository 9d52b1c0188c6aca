// The answers of the report log as C's structs, by value: the number of the refusal or 0 first, then the values.
// A field for which an answer has no value is 0. That each struct has its answer's number and values stands in specs/.
#![tactic(auto)]

ghost use Rattle.std.specs.Prelude.{◌≡◌};
ghost use Rattle.log_results.specs.LogStructs.{log_write_result_of, log_read_result_of};

use refusals::number_of;
use report_log::{Record, Report};
use timecode::{Refusal, Time};

// put_in: 1 where the record was put in, 0 where it does not fit.
#[repr(C)]
#[derive(Clone, Copy, PartialEq, Eq, Default)]
pub struct LogWriteResult {
    pub number: u8,
    pub put_in: u8,
    pub next: usize,
}

// found: 1 with a report, 0 at the log's end.
#[repr(C)]
#[derive(Clone, Copy, PartialEq, Eq, Default)]
pub struct LogReadResult {
    pub number: u8,
    pub found: u8,
    pub report: Report,
    pub next: usize,
}

impl From<Result<Option<usize>, Refusal>> for LogWriteResult {
    ghost from_gives = { λ written r. r ≡ log_write_result_of written };

    fn from(written: Result<Option<usize>, Refusal>) -> LogWriteResult {
        match written {
            Ok(Some(next)) => LogWriteResult {
                number: 0,
                put_in: 1,
                next,
            },
            Ok(None) => LogWriteResult::default(),
            Err(refusal) => LogWriteResult {
                number: number_of(refusal),
                ..LogWriteResult::default()
            },
        }
    }
}

// The struct of a reading is made field by field. So the time is stored as one word, and a caller that takes the report as the one before loads it as one word:
// made case by case it would be stored in parts, and reading a log would take a fifth longer, as measured.
fn read_number(reading: Result<Option<Record>, Refusal>) -> u8
    ensures { result ≡ (log_read_result_of reading).number }
{
    match reading {
        Ok(_) => 0,
        Err(refusal) => number_of(refusal),
    }
}

fn read_found(reading: Result<Option<Record>, Refusal>) -> u8
    ensures { result ≡ (log_read_result_of reading).found }
{
    match reading {
        Ok(Some(_)) => 1,
        Ok(None) | Err(_) => 0,
    }
}

fn read_time(reading: Result<Option<Record>, Refusal>) -> Time
    ensures { result ≡ (log_read_result_of reading).report.time }
{
    match reading {
        Ok(Some(record)) => record.report.time,
        Ok(None) | Err(_) => Time::default(),
    }
}

fn read_control(reading: Result<Option<Record>, Refusal>) -> u64
    ensures { result ≡ (log_read_result_of reading).report.control }
{
    match reading {
        Ok(Some(record)) => record.report.control,
        Ok(None) | Err(_) => 0,
    }
}

fn read_next(reading: Result<Option<Record>, Refusal>) -> usize
    ensures { result ≡ (log_read_result_of reading).next }
{
    match reading {
        Ok(Some(record)) => record.next,
        Ok(None) | Err(_) => 0,
    }
}

impl From<Result<Option<Record>, Refusal>> for LogReadResult {
    ghost from_gives = { λ reading r. r ≡ log_read_result_of reading };

    fn from(reading: Result<Option<Record>, Refusal>) -> LogReadResult {
        LogReadResult {
            number: read_number(reading),
            found: read_found(reading),
            report: Report {
                time: read_time(reading),
                control: read_control(reading),
            },
            next: read_next(reading),
        }
    }
}
