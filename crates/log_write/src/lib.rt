// Writing a record into a lent log.
#![tactic(auto)]

ghost use Rattle.std.specs.Prelude.{◌≡◌, ◌+◌, ◌≤◌, length};
ghost use Rattle.std.proofs.lemmas.List.Edits.{sets};
ghost use Rattle.report_log.specs.Log.{bytes_of, record_of, fit_of, write_log, log_left};
ghost use Rattle.log_write.specs.Parts.{field_bytes, fit_left};

use log_record::{check_report, map_of, record_size};
use report_log::Report;
use timecode::Refusal;

// A number in as many bytes as the width, lowest byte first.
fn put_number(part: &mut [u8], at: usize, number: u64, width: usize)
    requires { at + width ≤ length part.old }
    ensures { part.new ≡ sets part.old at (bytes_of width number) }
{
    let mut rest = number;
    for i in 0..width {
        part[at + i] = (rest % 256) as u8;
        rest /= 256;
    }
}

// A field, where it differs from the report before; the place behind it.
fn put_field(part: &mut [u8], at: usize, before: u64, number: u64, width: usize) -> usize
    requires { at + length (field_bytes width before number) ≤ length part.old }
    ensures { (result ≡ at + length (field_bytes width before number)) × (part.new ≡ sets part.old at (field_bytes width before number)) }
{
    if number == before {
        at
    } else {
        put_number(part, at, number, width);
        at + width
    }
}

// The record, at the start of the part.
fn put_record(part: &mut [u8], before: Report, report: Report)
    requires { length (record_of before report) ≤ length part.old }
    ensures { part.new ≡ sets part.old 0 (record_of before report) }
{
    part[0] = map_of(before, report);
    let first = put_field(part, 1, before.time.day as u64, report.time.day as u64, 2);
    let second = put_field(
        part,
        first,
        before.time.hundredths as u64,
        report.time.hundredths as u64,
        3,
    );
    let third = put_field(part, second, before.control, report.control, 6);
    put_field(
        part,
        third,
        before.time.year as u64,
        report.time.year as u64,
        1,
    );
}

// The record of a report in its ranges, put in where it fits.
fn put_where_fits(
    log: &mut [u8],
    at: usize,
    before: Report,
    report: Report,
) -> Result<Option<usize>, Refusal>
    requires { at ≤ length log.old }
    ensures { (result ≡ fit_of log.old at (record_of before report)) × (log.new ≡ fit_left log.old at (record_of before report)) }
{
    let size = record_size(map_of(before, report));
    if size <= log.len() - at {
        put_record(&mut log[at..], before, report);
        return Ok(Some(at + size));
    }
    Ok(None)
}

// Adds the record of a report at a place of the lent log. The report before is the last one put in, or all zeros.
pub fn write_report(
    log: &mut [u8],
    at: usize,
    before: Report,
    report: Report,
) -> Result<Option<usize>, Refusal>
    ensures value { result ≡ write_log log.old at before report }
    ensures log_after { log.new ≡ log_left log.old at before report }
{
    if log.len() < at {
        return Err(Refusal::StartPastEnd);
    }
    check_report(report)?;
    put_where_fits(log, at, before, report)
}
