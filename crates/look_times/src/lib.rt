// Times, reports and stretches of reports, as timelook prints them. Elements are counted from 1.
// Nothing says which bytes they display, so these promise to be safe and to end, and no more.
#![tactic(auto)]

use lines::report_line;
use std::fmt;
use timecode::Time;

// What stands in timeread's line behind the time: a space, the control word in twelve digits and the newline.
const BEHIND_TIME: usize = 14;

// The day and the time of day, as timeread prints them.
#[derive(Clone, Copy)]
pub struct Moment(pub Time);

impl fmt::Display for Moment {
    // In timeread's line the number 0 and a space stand before them.
    fn fmt<W: fmt::Write>(&self, f: &mut fmt::Formatter<W>) -> fmt::Result {
        let mut line = [0u8; 64];
        let filled = report_line(&mut line, 0, self.0, 0);
        let text = line
            .get(2..filled.saturating_sub(BEHIND_TIME))
            .unwrap_or(b"");
        f.write_str(std::str::from_utf8(text).unwrap_or(""))
    }
}

// The element that brought a report, and the report's time.
#[derive(Clone, Copy)]
pub struct Report {
    pub element: usize,
    pub time: Time,
}

impl fmt::Display for Report {
    fn fmt<W: fmt::Write>(&self, f: &mut fmt::Formatter<W>) -> fmt::Result {
        write!(f, "{} {}", self.element, Moment(self.time))
    }
}

// The first and the last report of a stretch, and how many there are.
#[derive(Clone, Copy)]
pub struct Stretch {
    pub reports: u64,
    pub first: Report,
    pub last: Report,
}

impl From<Report> for Stretch {
    fn from(report: Report) -> Stretch {
        Stretch {
            reports: 1,
            first: report,
            last: report,
        }
    }
}

impl Stretch {
    pub fn push(&mut self, report: Report) {
        self.reports = self.reports.wrapping_add(1);
        self.last = report;
    }
}

impl fmt::Display for Stretch {
    fn fmt<W: fmt::Write>(&self, f: &mut fmt::Formatter<W>) -> fmt::Result {
        write!(
            f,
            "reports {}: {} to {}",
            self.reports, self.first, self.last
        )
    }
}
