// A call of the engine as a line of text, `step B 4 24 366 8639900 365 0`, and its answer as text, `25 1 0`: a time is its year, its day and its hundredths.
// A line `feeds` is a whole stream: format, setting and symbols, and its answer is every report. A float is the 16 digits of its bits, a byte of a log two digits.
// Memory that a call is lent is the first of 1,024 bytes: all of them, where more are asked for.
#![tactic(auto)]

ghost use Rattle.std.specs.Prelude.{◌≤◌};

use answertext::{
    Text, put, put_bits, put_bytes, put_decimal, put_frame, put_log, put_reading, put_refusal,
    put_signed, put_time,
};
use casewords::{
    byte_in, bytes_in, decimal, elements_in, format_in, hexadecimal, time_in, u16_in, u32_in,
    word_in,
};
use clock::{difference, step, step_back};
use editions::{backward, forward};
use floats::{float_of, pattern_of};
use forecasts::Oscillator;
use frame::{read, write};
use holdover::forecast;
use log_read::read_report;
use log_write::write_report;
use pulse::classify;
use register::Register;
use report_log::{Record, Report};
use scan::scan;
use simulatetext::put_simulate;
use stream::{Reader, answer_to, next_reader};
use timecode::{Answer, Format, Found, Pulse, Reading, Refusal, Time, WidthSettings};

const ROOM: usize = 1024;

// What the memory that a call is lent holds before it: no symbol.
const LENT: u8 = 170;

// Puts the answer of a step, either way. Word 6: the year's length; 7: the kind of the day, a usual one where there is no such word.
fn put_step<S: FnOnce(Format, Time, u16, u8) -> Result<Time, Refusal>>(
    line: &[u8],
    text: &mut Text,
    step: S,
)
    requires { S.IsAlwaysCallable step }
{
    let stepped = step(
        format_in(line),
        time_in(line, 3),
        u16_in(line, 6),
        byte_in(line, 7),
    );
    match stepped {
        Ok(time) => put_time(text, time),
        Err(refusal) => put_refusal(text, refusal),
    }
}

// A refusal, which leaves the memory as it was.
fn put_left(text: &mut Text, refusal: Refusal, memory: &[u8; ROOM]) {
    put_refusal(text, refusal);
    if memory.iter().any(|byte| *byte != LENT) {
        put_bytes(text, b" CHANGED");
    }
}

// The frame that was written, or the refusal.
fn put_written(text: &mut Text, written: Result<(), Refusal>, memory: &[u8; ROOM], room: usize)
    requires { room ≤ ROOM }
{
    match written {
        Ok(()) => put_frame(text, &memory[..room]),
        Err(refusal) => put_left(text, refusal, memory),
    }
}

// How much memory is lent, by that word.
fn room_in(line: &[u8], word: usize) -> usize
    ensures { result ≤ ROOM }
{
    (decimal(line, word) as usize).min(ROOM)
}

fn put_write(line: &[u8], text: &mut Text) {
    let control = hexadecimal(line, 6);
    let room = room_in(line, 7);
    let mut memory = [LENT; ROOM];
    let written = write(
        format_in(line),
        time_in(line, 3),
        control,
        &mut memory[..room],
    );
    put_written(text, written, &memory, room);
}

// Words 3, 4 and 5: the frame, the year and how many bytes are lent.
fn put_forward(line: &[u8], text: &mut Text) {
    let frame = elements_in(line, 3);
    let room = room_in(line, 5);
    let mut memory = [LENT; ROOM];
    let written = forward(
        format_in(line),
        &frame,
        byte_in(line, 4),
        &mut memory[..room],
    );
    put_written(text, written, &memory, room);
}

// Words 3 and 4: the frame and how many bytes are lent.
fn put_backward(line: &[u8], text: &mut Text) {
    let frame = elements_in(line, 3);
    let room = room_in(line, 4);
    let mut memory = [LENT; ROOM];
    let written = backward(format_in(line), &frame, &mut memory[..room]);
    put_written(text, written, &memory, room);
}

fn put_read(line: &[u8], text: &mut Text) {
    let reading = read(format_in(line), &elements_in(line, 3));
    match reading {
        Ok(Reading { time, control }) => put_reading(text, time, control),
        Err(refusal) => put_refusal(text, refusal),
    }
}

fn put_difference(line: &[u8], text: &mut Text) {
    let subtracted = difference(time_in(line, 1), time_in(line, 4));
    match subtracted {
        Ok(hundredths) => put_signed(text, hundredths),
        Err(refusal) => put_refusal(text, refusal),
    }
}

// Words 2 to 4: the settings of zeros, ones and marks.
fn width_settings_in(line: &[u8]) -> WidthSettings {
    WidthSettings {
        zeros: byte_in(line, 2),
        ones: byte_in(line, 3),
        marks: byte_in(line, 4),
    }
}

// Word 1: the interval; 5 and 6: the width and the period.
fn put_classify(line: &[u8], text: &mut Text) {
    let classified = classify(
        width_settings_in(line),
        u32_in(line, 1),
        u32_in(line, 5),
        u32_in(line, 6),
    );
    match classified {
        Ok(Pulse { symbol, deviation }) => {
            put_decimal(text, u64::from(symbol));
            put(text, b' ');
            put_signed(text, i64::from(deviation));
        }
        Err(refusal) => put_refusal(text, refusal),
    }
}

// The float whose bits are that word.
fn float_in(line: &[u8], word: usize) -> f64 {
    float_of(hexadecimal(line, word))
}

// The bits, or `nan` for whatever is no number.
fn put_float(text: &mut Text, float: f64) {
    match pattern_of(float) {
        Some(bits) => put_bits(text, bits),
        None => put_bytes(text, b"nan"),
    }
}

// Words 1 to 4: E0, f0, fr and a; word 5: the seconds.
fn put_holdover(line: &[u8], text: &mut Text) {
    let oscillator = Oscillator {
        error: float_in(line, 1),
        frequency: float_in(line, 2),
        reference: float_in(line, 3),
        ageing: float_in(line, 4),
    };
    let expected = forecast(oscillator, u32_in(line, 5));
    match expected {
        Ok(error) => put_float(text, error),
        Err(refusal) => put_refusal(text, refusal),
    }
}

// Words 3 and 4: the recording and the place to start at.
fn put_scan(line: &[u8], text: &mut Text) {
    let start = decimal(line, 4) as usize;
    let scanned = scan(format_in(line), &elements_in(line, 3), start);
    match scanned {
        Ok(Some(Found { start, reading })) => {
            put_decimal(text, start as u64);
            put(text, b' ');
            put_reading(text, reading.time, reading.control);
        }
        Ok(None) => put_bytes(text, b"none"),
        Err(refusal) => put_refusal(text, refusal),
    }
}

// The number of the report's last element, the time and the control word; reports stand apart by `;`.
fn put_report(text: &mut Text, element: u64, time: Time, control: u64) {
    if !text.is_empty() {
        put_bytes(text, b"; ");
    }
    put_decimal(text, element);
    put(text, b' ');
    put_reading(text, time, control);
}

// A reader, and how many symbols it has accepted.
#[derive(Clone, Copy)]
struct Progress {
    reader: Reader,
    elements: u64,
}

impl Progress {
    // Feeds one symbol, and puts the report that it brings. A refused symbol is not counted.
    fn feed(&mut self, symbol: u8, text: &mut Text) {
        let reader = next_reader(self.reader, symbol);
        let answer = answer_to(self.reader, symbol, reader);
        let element = self.elements.wrapping_add(1);
        match answer {
            Answer::Quiet => {}
            Answer::Report { time, control } => put_report(text, element, time, control),
            Answer::Refused(_) => return,
        }
        self.reader = reader;
        self.elements = element;
    }
}

fn put_reports(text: &mut Text, reader: Reader, symbols: &[u8]) {
    let mut progress = Progress {
        reader,
        elements: 0,
    };
    for symbol in symbols {
        progress.feed(*symbol, text);
    }
    if text.is_empty() {
        put_bytes(text, b"none");
    }
}

// Words 3 and 4 behind the format: the setting of a fresh reader, and the symbols that it is fed one after the other.
fn put_feeds(line: &[u8], text: &mut Text) {
    let made = Reader::fresh(format_in(line), byte_in(line, 3));
    match made {
        Ok(reader) => put_reports(text, reader, &elements_in(line, 4)),
        Err(refusal) => put_refusal(text, refusal),
    }
}

// A reader that no call made: words 1 to 4 are its format, setting and place.
fn reader_in(line: &[u8]) -> Reader {
    Reader {
        format: format_in(line),
        setting: byte_in(line, 3),
        place: decimal(line, 4) as usize,
        received: Register {
            count: 0,
            newest: 0,
            word0: 0,
            word1: 0,
            word2: 0,
            row: 0,
        },
        time: Time {
            year: 0,
            day: 0,
            hundredths: 0,
        },
        control: 0,
    }
}

// Word 5: the symbol that this reader is fed.
fn put_feed(line: &[u8], text: &mut Text) {
    let reader = reader_in(line);
    let symbol = byte_in(line, 5);
    let answer = answer_to(reader, symbol, next_reader(reader, symbol));
    match answer {
        Answer::Quiet => put_bytes(text, b"quiet"),
        Answer::Report { time, control } => put_reading(text, time, control),
        Answer::Refused(refusal) => put_refusal(text, refusal),
    }
}

// The report of which the year is that word.
fn report_in(line: &[u8], word: usize) -> Report
    requires { word ≤ 8 }
{
    Report {
        time: time_in(line, word),
        control: hexadecimal(line, word + 3),
    }
}

// Words 1 and 2, the length of the log and the place; then the report before and the report.
fn put_log_write(line: &[u8], text: &mut Text) {
    let room = room_in(line, 1);
    let place = decimal(line, 2) as usize;
    let mut memory = [LENT; ROOM];
    let written = write_report(
        &mut memory[..room],
        place,
        report_in(line, 3),
        report_in(line, 7),
    );
    match written {
        Ok(Some(next)) => {
            put_decimal(text, next as u64);
            put_log(text, &memory[..room]);
        }
        Ok(None) => {
            put_bytes(text, b"nofit");
            put_log(text, &memory[..room]);
        }
        Err(refusal) => put_left(text, refusal, &memory),
    }
}

// Words 1 and 2, the log and the place; then the report before.
fn put_log_read(line: &[u8], text: &mut Text) {
    let place = decimal(line, 2) as usize;
    let reading = read_report(&bytes_in(line, 1), place, report_in(line, 3));
    match reading {
        Ok(Some(Record { report, next })) => {
            put_reading(text, report.time, report.control);
            put_bytes(text, b" next ");
            put_decimal(text, next as u64);
        }
        Ok(None) => put_bytes(text, b"none"),
        Err(refusal) => put_refusal(text, refusal),
    }
}

// Makes the call on the line, and puts its answer into a text that is empty.
pub fn put_answer(line: &[u8], text: &mut Text) {
    match word_in(line, 0) {
        b"step" => put_step(line, text, step),
        b"back" => put_step(line, text, step_back),
        b"write" => put_write(line, text),
        b"read" => put_read(line, text),
        b"forward" => put_forward(line, text),
        b"backward" => put_backward(line, text),
        b"difference" => put_difference(line, text),
        b"classify" => put_classify(line, text),
        b"holdover" => put_holdover(line, text),
        b"scan" => put_scan(line, text),
        b"feeds" => put_feeds(line, text),
        b"feed" => put_feed(line, text),
        b"logwrite" => put_log_write(line, text),
        b"logread" => put_log_read(line, text),
        b"simulate" => put_simulate(line, text),
        _ => put_bytes(text, b"unknown call"),
    }
}
