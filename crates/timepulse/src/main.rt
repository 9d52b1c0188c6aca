// Prints the recording of the pulses on standard input, which timeread reads. Each line has the width and the period of a pulse in
// counter ticks; a first line that begins with a letter, a quotation mark or a number sign is a heading.
// Its arguments are letter and expression, the nominal element interval in ticks and, if any, the settings of zeros, ones and
// marks in percent of it. With the word `deviations` last it prints a line for each pulse in place of the recording.
#![tactic(auto)]

ghost use Rattle.std.specs.Prelude.{◌≤◌};

use command_line::{format_argument, limited_8, limited_32, number_argument};
use frametext::{character_of, first_line};
use layout::{frame_size, is_known};
use output::print_refused;
use program_io::{argument, argument_count, read_bytes, tell, tell_number};
use pulse::classify;
use pulse_lines::{PulseLine, is_heading, pulse_line};
use texts::{Output, WriteFailed};
use timecode::{Format, Pulse, Refusal, WidthSettings};
use version::print_version;

// No line of output is longer than so many bytes.
const LONGEST_ROW: usize = 128;

// A line that fills this many bytes is too long for any pulse.
const LONGEST_LINE: usize = 256;

#[derive(Clone, Copy)]
struct Request {
    format: Format,
    interval: u32,
    settings: WidthSettings,
    deviations: bool,
}

// Why no further line is taken.
#[derive(Clone, Copy, Debug, PartialEq, Eq)]
enum Stop {
    Ended,
    Refused,
    Failed,
}

impl From<WriteFailed> for Stop {
    fn from(_failed: WriteFailed) -> Stop {
        Stop::Failed
    }
}

// ---- the arguments

fn deviations_argument(rt: &HostRuntime, i: usize) -> bool {
    let mut text = [0u8; 4096];
    match argument(rt, i, &mut text) {
        Some(bytes) => bytes == b"deviations".as_slice(),
        None => false,
    }
}

// 5, 5 and 5 where none are given.
fn settings_arguments(rt: &HostRuntime, count: usize) -> Option<WidthSettings> {
    if count < 6 {
        return Some(WidthSettings {
            zeros: 5,
            ones: 5,
            marks: 5,
        });
    }
    let Some(zeros) = number_argument(rt, 3) else {
        return None;
    };
    let Some(ones) = number_argument(rt, 4) else {
        return None;
    };
    let Some(marks) = number_argument(rt, 5) else {
        return None;
    };
    Some(WidthSettings {
        zeros: limited_8(zeros),
        ones: limited_8(ones),
        marks: limited_8(marks),
    })
}

fn request_from(rt: &HostRuntime, count: usize, deviations: bool) -> Option<Request> {
    let Some(format) = format_argument(rt, 1) else {
        return None;
    };
    let Some(interval) = number_argument(rt, 2) else {
        return None;
    };
    let settings = settings_arguments(rt, count)?;
    Some(Request {
        format,
        interval: limited_32(interval),
        settings,
        deviations,
    })
}

// None where the arguments are malformed. Where there are 4 or 7, the last one is the word.
fn asked_for(rt: &HostRuntime) -> Option<Request> {
    let count = argument_count(rt);
    match count {
        3 | 6 => request_from(rt, count, false),
        4 | 7 => {
            if deviations_argument(rt, count - 1) {
                request_from(rt, count, true)
            } else {
                None
            }
        }
        _ => None,
    }
}

// The line under way and how many of its bytes are held.
#[derive(Drop)]
struct Line {
    bytes: [u8; 256],
    used: usize,
    ghost within: { used ≤ 256 },
}

impl Line {
    // One that is too long stays so.
    fn push(&mut self, byte: u8) {
        if self.used < LONGEST_LINE {
            self.bytes[self.used] = byte;
            self.used += 1;
        }
    }

    fn as_bytes(&self) -> &[u8] {
        &self.bytes[..self.used]
    }
}

// What is asked for, the line under way, how many lines there were before it, what is printed, and how many elements stand in its last row.
#[derive(Drop)]
struct Pulses<'a> {
    rt: &'a HostRuntime,
    request: Request,
    line: Line,
    lines: u64,
    out: Output<'a>,
    column: usize,
}

impl<'a> Pulses<'a> {
    // ---- the output

    // Ends the row under way and writes what is filled.
    fn write_rest(&mut self) -> Result<(), WriteFailed> {
        if 0 < self.column {
            self.out.page.push(b'\n');
            self.column = 0;
        }
        self.out.flush()
    }

    // As many elements stand in a row as in a frame.
    fn put_symbol(&mut self, symbol: u8) {
        self.out.page.push(character_of(symbol));
        let n = frame_size(self.request.format);
        if self.column < n {
            self.column += 1;
            if self.column == n {
                self.out.page.push(b'\n');
                self.column = 0;
            }
        }
    }

    fn put_pulse(&mut self, width: u32, period: u32) -> Result<(), Stop> {
        self.out.make_room(LONGEST_ROW)?;
        let classified = classify(self.request.settings, self.request.interval, width, period);
        match classified {
            Ok(Pulse { symbol, deviation }) => {
                if self.request.deviations {
                    let character = char::from(character_of(symbol));
                    self.out
                        .page
                        .put(format_args!("{width} {period} {character} {deviation}\n"));
                } else {
                    self.put_symbol(symbol);
                }
                Ok(())
            }
            Err(_) => Err(Stop::Refused),
        }
    }

    // ---- the lines

    // What stands before the line is written, and nothing follows.
    fn refuse_line(&mut self) -> Result<(), Stop> {
        self.write_rest()?;
        tell(self.rt, b"refused line ");
        tell_number(self.rt, self.lines);
        tell(self.rt, b"\n");
        Err(Stop::Refused)
    }

    fn take_line(&mut self) -> Result<(), Stop> {
        self.lines = self.lines.wrapping_add(1);
        let line = self.line.as_bytes();
        let heading = self.lines == 1 && is_heading(line);
        let read = if LONGEST_LINE <= line.len() {
            None
        } else {
            Some(pulse_line(line))
        };
        self.line.used = 0;
        match read {
            Some(PulseLine::Pulse { width, period }) => self.put_pulse(width, period),
            Some(PulseLine::Empty) => Ok(()),
            Some(PulseLine::Other) if heading => Ok(()),
            _ => self.refuse_line(),
        }
    }

    fn take_byte(&mut self, byte: u8) -> Result<(), Stop> {
        if byte == b'\n' {
            self.take_line()
        } else {
            self.line.push(byte);
            Ok(())
        }
    }

    // At the input's end a last line without a newline counts too.
    fn take_end(&mut self) -> Result<(), Stop> {
        if 0 < self.line.used {
            self.take_line()?;
        }
        self.write_rest()?;
        Err(Stop::Ended)
    }

    // Where a read fails, what came before it is written.
    fn take_read(&mut self) -> Result<(), Stop> {
        let mut input = [0u8; 65536];
        let Some(bytes) = read_bytes(self.rt, &mut self.rt.stdin(), &mut input) else {
            self.write_rest()?;
            return Err(Stop::Failed);
        };
        if bytes.is_empty() {
            return self.take_end();
        }
        for byte in bytes {
            self.take_byte(*byte)?;
        }
        Ok(())
    }
}

fn print_pulses(rt: &HostRuntime, request: Request) {
    let line = Line {
        bytes: [0; 256],
        used: 0,
    };
    let mut pulses = Pulses {
        rt,
        request,
        line,
        lines: 0,
        out: Output::new(rt),
        column: 0,
    };
    // The first line of a recording; deviations are none.
    if !request.deviations {
        pulses.out.page.put_bytes(&first_line(request.format));
    }
    // A proved loop has to end: the reads are counted up to a number that no run reaches.
    for _ in 0..u64::MAX {
        if pulses.take_read().is_err() {
            break;
        }
    }
}

// Every check is made before anything is printed.
fn print_checked(rt: &HostRuntime, request: Request) {
    if !is_known(request.format) {
        print_refused(rt, Refusal::UnknownFormat);
        return;
    }
    let classified = classify(request.settings, request.interval, 0, 0);
    match classified {
        Ok(_) => print_pulses(rt, request),
        Err(refusal) => print_refused(rt, refusal),
    }
}

fn main(rt: HostRuntime) {
    if print_version(&rt, b"timepulse") {
        return;
    }
    match asked_for(&rt) {
        Some(request) => print_checked(&rt, request),
        None => tell(
            &rt,
            b"usage: timepulse FORMAT INTERVAL [ZEROS ONES MARKS] [deviations]; standard input has lines WIDTH PERIOD\n",
        ),
    }
}
