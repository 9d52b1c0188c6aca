// What writing and reading a report log take and what they answer: types only, no function.
// The record of a report and the log of a list of reports are defined, and their theorems stand, in specs/.
#![tactic(auto)]

use timecode::Time;

// What a stream reader reports: a time and a control word.
#[repr(C)]
#[derive(Clone, Copy, PartialEq, Eq, Default)]
pub struct Report {
    pub time: Time,
    pub control: u64,
}

impl Report {
    // a control word is below it: a record has 48 bits for one
    pub const CONTROL_LIMIT: u64 = 281_474_976_710_656;
}

// The record at a place of a log: its report, and the place after it. Reading gives it.
#[derive(Clone, Copy, PartialEq, Eq)]
pub struct Record {
    pub report: Report,
    pub next: usize,
}
