// What writing and reading a record share: its map, its size by the map, and the ranges of a report.
#![tactic(auto)]

ghost use Rattle.std.specs.Prelude.{◌≡◌, cond, not, ◌+◌, ◌≤◌, eqb};
ghost use Rattle.timecode.specs.Formats.{last_day, in_range};
ghost use Rattle.timecode.specs.Answers.{done};
ghost use Rattle.report_log.specs.Log.{fields_of, map_of, stands, size_of, fields_after, check_report};
ghost use Rattle.report_log.specs.declared.Report.{Report};

use report_log::Report;
use timecode::{Refusal, Time};

// 1 where the field differs from the report before.
fn bit(before: u64, now: u64) -> u8
    ensures { (result ≡ cond (not (eqb now before)) 1 0) × (result ≤ 1) }
{
    if now == before { 0 } else { 1 }
}

// The map of a report after the one before.
pub fn map_of(before: Report, report: Report) -> u8
    ensures { result ≡ map_of (fields_of before report) }
{
    let day = bit(before.time.day as u64, report.time.day as u64);
    let hundredths = bit(before.time.hundredths as u64, report.time.hundredths as u64);
    let control = bit(before.control, report.control);
    let year = bit(before.time.year as u64, report.time.year as u64);
    day + 2 * hundredths + 4 * control + 8 * year
}

// The bytes of a field: its width where the map's lowest bit stands, else none.
pub fn field_size(map: u8, width: usize) -> usize
    ensures { (result ≡ cond (stands map) width 0) × (result ≤ width) }
{
    if map % 2 == 1 { width } else { 0 }
}

// The bytes of a record with that map, the map's own among them; bits 4 to 7 count for none.
pub fn record_size(map: u8) -> usize
    ensures { ((p : Report) → result ≡ 1 + size_of (fields_after p) map) × (result ≤ 13) }
{
    let day = field_size(map, 2);
    let hundredths = field_size(map / 2, 3);
    let control = field_size(map / 2 / 2, 6);
    let year = field_size(map / 2 / 2 / 2, 1);
    1 + day + hundredths + control + year
}

#[tactic(auto, unfolding(timecode::specs::Formats::in_range))]
fn in_range(time: Time) -> bool
    ensures { result ≡ in_range last_day time }
{
    Time::FIRST_DAY <= time.day
        && time.day <= Time::LAST_DAY
        && time.hundredths <= Time::LAST_HUNDREDTH
}

// 2, 17, 9: the ranges of a report.
pub fn check_report(report: Report) -> Result<(), Refusal>
    ensures { result ≡ check_report Err report done }
{
    if !in_range(report.time) {
        return Err(Refusal::InvalidTime);
    }
    if Time::LAST_YEAR < report.time.year {
        return Err(Refusal::InvalidYear);
    }
    if Report::CONTROL_LIMIT <= report.control {
        return Err(Refusal::ControlTooLong);
    }
    Ok(())
}
