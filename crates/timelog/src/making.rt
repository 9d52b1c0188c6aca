// The log of the lines on standard input, written on standard output. A line that is no report ends it, with a message on
// standard error; the last line of timeread or of timelog ends it too.
// A method gives nothing where no more is to be made.
use arrayvec::ArrayVec;
use log_lines::{no_report, report_in};
use log_write::write_report;
use output::write_first;
use program_io::{read_bytes, tell, tell_number};
use refusals::number_of;
use report_log::Report;
use std::num::wrapping_add_u64;
use timecode::{Refusal, Time};

// The year of all reports, or none where each has its own; the open line, and how many lines were before it; and the
// output, with the next place in it and the last report put in.
#[derive(Drop)]
struct Making<'a> {
    rt: &'a HostRuntime,
    year: Option<u8>,
    line: ArrayVec<u8, 64>,
    lines: u64,
    out: &'a mut [u8; 65536],
    place: usize,
    last: Report,
}

// The line of the counts, timeread's or timelog's.
fn is_last(line: &[u8]) -> bool {
    line.starts_with(b"elements ") || line.starts_with(b"bytes ")
}

impl<'a> Making<'a> {
    fn new(rt: &'a HostRuntime, year: Option<u8>, out: &'a mut [u8; 65536]) -> Self {
        Making {
            rt,
            year,
            line: ArrayVec::new(),
            lines: 0,
            out,
            place: 0,
            last: no_report(),
        }
    }

    fn dated(&self, report: Report) -> Report {
        let year = self.year.unwrap_or(report.time.year);
        Report {
            time: Time {
                year,
                ..report.time
            },
            ..report
        }
    }

    fn tell_line(&self) {
        tell(self.rt, b"line ");
        tell_number(self.rt, self.lines);
    }

    fn tell_other(&self) {
        self.tell_line();
        tell(self.rt, b" is no report\n");
    }

    fn tell_refused(&self, refusal: Refusal) {
        self.tell_line();
        tell(self.rt, b" refused ");
        tell_number(self.rt, number_of(refusal) as u64);
        tell(self.rt, b"\n");
    }

    fn put_in(&mut self, place: usize, report: Report) -> Option<()> {
        self.place = place;
        self.last = report;
        Some(())
    }

    // Where the output has no room for the record, what is in it is written first, and the record then fits at its start.
    fn add_from_start(&mut self, report: Report) -> Option<()> {
        let place = self.place;
        if !write_first(self.rt, self.out, place) {
            return None;
        }
        let last = self.last;
        let written = write_report(self.out, 0, last, report);
        match written {
            Ok(Some(next)) => self.put_in(next, report),
            Ok(None) => None,
            Err(refusal) => {
                self.tell_refused(refusal);
                None
            }
        }
    }

    fn add_report(&mut self, report: Report) -> Option<()> {
        let place = self.place;
        let last = self.last;
        let written = write_report(self.out, place, last, report);
        match written {
            Ok(Some(next)) => self.put_in(next, report),
            Ok(None) => self.add_from_start(report),
            Err(refusal) => {
                self.tell_refused(refusal);
                None
            }
        }
    }

    fn make_line(&mut self) -> Option<()> {
        self.lines = wrapping_add_u64(self.lines, 1);
        if is_last(self.line.as_slice()) {
            return None;
        }
        let read = report_in(self.line.as_slice());
        self.line.clear();
        match read {
            Some(line) => self.add_report(self.dated(line.report)),
            None => {
                self.tell_other();
                None
            }
        }
    }

    // A byte of the open line. One that is longer than any report's stays too long.
    fn take_byte(&mut self, byte: u8) -> Option<()> {
        if byte == b'\n' {
            return self.make_line();
        }
        let _ = self.line.try_push(byte);
        Some(())
    }

    // Makes the records of what one read brought; at the input's end also of a last line without a newline.
    fn make_read(&mut self) -> Option<()> {
        let mut input = [0u8; 65536];
        let bytes = read_bytes(self.rt, &mut self.rt.stdin(), &mut input)?;
        if bytes.is_empty() {
            if !self.line.is_empty() {
                self.make_line()?;
            }
            return None;
        }
        for byte in bytes {
            self.take_byte(*byte)?;
        }
        Some(())
    }
}

// The output is lent to the struct: one that holds it is moved, and takes its room on the stack twice.
pub fn make_log(rt: &HostRuntime, year: Option<u8>) {
    let mut out = [0; 65536];
    let mut making = Making::new(rt, year, &mut out);
    // A proved loop has to end: the reads are counted up to a number that no run reaches.
    for _ in 0..u64::MAX {
        if making.make_read().is_none() {
            break;
        }
    }
    let place = making.place;
    write_first(rt, making.out, place);
}
