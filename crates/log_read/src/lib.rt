// Reading a record of a log.
#![tactic(auto)]

ghost use Rattle.std.specs.Prelude.{◌≡◌, cond, ℕ, ◌+◌, ◌^◌, ◌≤◌, ◌<◌, get_or, length, take, drop};
ghost use Rattle.report_log.specs.Log.{number_in, stands, size_of, read_fields, report_in, fields_after, read_record, read_log};

use log_record::{check_report, field_size, map_of, record_size};
use report_log::{Record, Report};
use timecode::{Refusal, Time};

// The number in as many bytes as the width, lowest byte first.
fn number_in(part: &[u8], at: usize, width: usize) -> u64
    requires { (at + width ≤ length part.now) × (width ≤ 6) }
    ensures { (result ≡ number_in (take width (drop at part.now))) × (result < 256 ^ width) }
{
    let mut number = 0;
    for i in 0..width {
        number = number * 256 + part[at + (width - 1 - i)] as u64;
    }
    number
}

// A field: its number where the map's lowest bit stands, else the one before.
fn field_in(part: &[u8], at: usize, map: u8, width: usize, before: u64) -> u64
    requires { (at + cond (stands map) width 0 ≤ length part.now) × (width ≤ 6) }
    ensures { (result ≡ cond (stands map) (number_in (take width (drop at part.now))) before) × ((limit : ℕ) → before < limit → 256 ^ width ≤ limit → result < limit) }
{
    if map % 2 == 1 {
        number_in(part, at, width)
    } else {
        before
    }
}

// The report that the record at the start of the part says.
fn report_in(part: &[u8], before: Report) -> Report
    requires { (1 + size_of (fields_after before) (get_or part.now 0 0)) ≤ length part.now }
    ensures { result ≡ report_in (read_fields (fields_after before) (get_or part.now 0 0) (drop 1 part.now)) }
{
    let first = part[0];
    let second = first / 2;
    let third = second / 2;
    let fourth = third / 2;
    let hundredths_at = 1 + field_size(first, 2);
    let control_at = hundredths_at + field_size(second, 3);
    let year_at = control_at + field_size(third, 6);
    let day = field_in(part, 1, first, 2, before.time.day as u64);
    let hundredths = field_in(
        part,
        hundredths_at,
        second,
        3,
        before.time.hundredths as u64,
    );
    let control = field_in(part, control_at, third, 6, before.control);
    let year = field_in(part, year_at, fourth, 1, before.time.year as u64);
    Report {
        time: Time {
            year: year as u8,
            day: day as u16,
            hundredths: hundredths as u32,
        },
        control,
    }
}

// The record at the start of the part, whose place in the log is given.
fn read_record(part: &[u8], at: usize, before: Report) -> Result<Option<Record>, Refusal>
    requires { (1 ≤ length part.now) × (at + length part.now ≤ 18446744073709551615) }
    ensures { result ≡ read_record before part.now at }
{
    let map = part[0];
    let size = record_size(map);
    if part.len() < size {
        return Err(Refusal::RecordCutShort);
    }
    let report = report_in(part, before);
    if map != map_of(before, report) {
        return Err(Refusal::InvalidRecord);
    }
    check_report(report)?;
    Ok(Some(Record {
        report,
        next: at + size,
    }))
}

// Reads the record at a place of a log, after the report before. The log ends where the lent part ends.
pub fn read_report(log: &[u8], at: usize, before: Report) -> Result<Option<Record>, Refusal>
    ensures { result ≡ read_log log.now at before }
{
    if log.len() < at {
        return Err(Refusal::StartPastEnd);
    }
    if at == log.len() {
        return Ok(None);
    }
    let part = &log[at..];
    read_record(part, at, before)
}
