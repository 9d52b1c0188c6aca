// The log on standard input printed: its bytes are held in a buffer and read on whenever the next record may not be whole.
// A method gives nothing where no more is to be printed.
ghost use Rattle.std.specs.Prelude.{◌≡◌, ◌≤◌, length};

use arrayvec::ArrayVec;
use log_lines::{log_line, no_report};
use log_read::read_report;
use program_io::{print, print_number, read, write};
use refusals::number_of;
use report_log::{Record, Report};
use std::num::wrapping_add_u64;
use timecode::Refusal;

// No record is longer.
const LONGEST_RECORD: usize = 13;
// No line is longer.
const LONGEST_LINE: usize = 64;

// The bytes of the log that are held, how many they are, the place among them, and how many stood before them; the lines
// that are not yet written; and the last report and how many there were.
#[derive(Drop)]
struct Printing<'a> {
    rt: &'a HostRuntime,
    log: &'a mut [u8],
    held: usize,
    place: usize,
    gone: u64,
    out: ArrayVec<u8, 65536>,
    last: Report,
    reports: u64,
    ghost within: { (place ≤ held) × (held ≤ length log.now) × (length log.now ≡ 65536) },
}

impl<'a> Printing<'a> {
    fn new(rt: &'a HostRuntime, log: &'a mut [u8; 65536]) -> Self {
        Printing {
            rt,
            log,
            held: 0,
            place: 0,
            gone: 0,
            out: ArrayVec::new(),
            last: no_report(),
            reports: 0,
        }
    }

    fn place_in_log(&self) -> u64 {
        wrapping_add_u64(self.gone, self.place as u64)
    }

    // Writes the lines that are not yet written; nothing more is done where that fails.
    fn write_lines(&mut self) -> Option<()> {
        let written = write(self.rt, self.out.as_slice());
        self.out.clear();
        written.then_some(())
    }

    fn put_report(&mut self, report: Report) -> Option<()> {
        if self.out.remaining_capacity() < LONGEST_LINE {
            self.write_lines()?;
        }
        let mut line = [0; LONGEST_LINE];
        let length = log_line(&mut line, report);
        self.out.try_extend_from_slice(&line[..length]).ok()
    }

    // The last line: two words, with a number behind each.
    fn print_last(&mut self, word: &[u8], number: u64, second_word: &[u8], second_number: u64) {
        if self.write_lines().is_some() {
            print(self.rt, word);
            print_number(self.rt, number);
            print(self.rt, second_word);
            print_number(self.rt, second_number);
            print(self.rt, b"\n");
        }
    }

    // Where the log breaks off: the number of the refusal, and the place of the record that has it.
    fn print_refusal(&mut self, refusal: Refusal) {
        let place = self.place_in_log();
        self.print_last(b"refused ", number_of(refusal) as u64, b" at ", place);
    }

    // Of a whole log: its bytes and its reports.
    fn print_counts(&mut self) {
        let place = self.place_in_log();
        let reports = self.reports;
        self.print_last(b"bytes ", place, b" reports ", reports);
    }

    fn list_record(&mut self) -> Option<()> {
        let reading = read_report(&self.log[..self.held], self.place, self.last);
        match reading {
            Ok(Some(Record { report, next })) => {
                self.put_report(report)?;
                // A record ends within the bytes that are held.
                self.place = next.min(self.held);
                self.last = report;
                self.reports = wrapping_add_u64(self.reports, 1);
                Some(())
            }
            Ok(None) => Some(()),
            Err(refusal) => {
                self.print_refusal(refusal);
                None
            }
        }
    }

    // The next record is held whole, or what is held of it is all that there is.
    fn is_readable(&self, ending: bool) -> bool {
        let rest = self.held - self.place;
        LONGEST_RECORD <= rest || ending && 0 < rest
    }

    // A record has at least a byte, so that there are no more turns than bytes.
    fn list_held(&mut self, ending: bool) -> Option<()> {
        for _ in 0..self.held {
            if !self.is_readable(ending) {
                break;
            }
            self.list_record()?;
        }
        Some(())
    }

    // Moves the bytes from the place on to the start.
    fn move_rest(&mut self) {
        self.gone = self.place_in_log();
        let place = self.place;
        let rest = self.held - place;
        for i in 0..rest {
            self.log[i] = self.log[place + i];
        }
        self.held = rest;
        self.place = 0;
    }

    // Lists what one read brought.
    fn print_read(&mut self) -> Option<()> {
        let rt = self.rt;
        let held = self.held;
        let log = &mut *self.log;
        let got = read(rt, &mut rt.stdin(), &mut log[held..]);
        let Some(count) = got else {
            self.write_lines();
            return None;
        };
        self.held += count;
        self.list_held(count == 0)?;
        if count == 0 {
            self.print_counts();
            return None;
        }
        self.move_rest();
        Some(())
    }
}

// The buffer is lent to the struct: one that holds it is moved, and takes its room on the stack twice.
pub fn print_log(rt: &HostRuntime) {
    let mut log = [0; 65536];
    let mut printing = Printing::new(rt, &mut log);
    // A proved loop has to end: the reads are counted up to a number that no run reaches.
    for _ in 0..u64::MAX {
        if printing.print_read().is_none() {
            break;
        }
    }
}
