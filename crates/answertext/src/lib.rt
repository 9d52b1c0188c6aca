// Answers as text: numbers, symbols, frames, logs, times and refusals, put into a text of at most 4,096 bytes; what finds no room is left out.
// A refusal is R and its number, with 5 and 6 also @ and the index of the element, with 25 that of the cycle.
#![tactic(auto)]

use arrayvec::ArrayVec;
use frametext::character_of;
use refusals::number_of;
use std::io::Write;
use timecode::{Refusal, Time};

// A line, or what is put behind it as its answer.
pub type Text = ArrayVec<u8, 4096>;

// Puts one byte; nothing where the text is full.
pub fn put(text: &mut Text, byte: u8) {
    let _ = text.try_push(byte);
}

// Puts as many of the bytes as there is room for.
pub fn put_bytes(text: &mut Text, bytes: &[u8]) {
    let _ = text.write_all(bytes);
}

pub fn put_decimal(text: &mut Text, number: u64) {
    let _ = write!(text, "{number}");
}

pub fn put_signed(text: &mut Text, number: i64) {
    let _ = write!(text, "{number}");
}

// Puts a number's bits as 16 hexadecimal digits.
pub fn put_bits(text: &mut Text, bits: u64) {
    let _ = write!(text, "{bits:016x}");
}

fn put_byte(text: &mut Text, byte: u8) {
    let _ = write!(text, "{byte:02x}");
}

fn put_symbol(text: &mut Text, symbol: u8) {
    if symbol <= 3 {
        put(text, character_of(symbol));
    } else {
        put(text, b'?');
        put_byte(text, symbol);
    }
}

pub fn put_frame(text: &mut Text, frame: &[u8]) {
    for symbol in frame {
        put_symbol(text, *symbol);
    }
}

// Puts a log's bytes behind a space, two hexadecimal digits each.
pub fn put_log(text: &mut Text, log: &[u8]) {
    put(text, b' ');
    if log.is_empty() {
        put_bytes(text, b"(empty)");
    }
    for byte in log {
        put_byte(text, *byte);
    }
}

pub fn put_time(text: &mut Text, time: Time) {
    let Time {
        year,
        day,
        hundredths,
    } = time;
    let _ = write!(text, "{year} {day} {hundredths}");
}

pub fn put_reading(text: &mut Text, time: Time, control: u64) {
    put_time(text, time);
    let _ = write!(text, " {control:x}");
}

pub fn put_refusal(text: &mut Text, refusal: Refusal) {
    let number = number_of(refusal);
    let _ = write!(text, "R{number}");
    match refusal {
        Refusal::MisplacedMark(index)
        | Refusal::InvalidElement(index)
        | Refusal::UnknownCycle(index) => {
            let _ = write!(text, "@{index}");
        }
        _ => {}
    }
}
