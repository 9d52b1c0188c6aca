// The words of a line that is a call, such as `step B 4 24 366 8639900 365 0`: its name, numbers, format, times, elements, bytes and listeners.
// A word that is no number, or is not there, is 0.
#![tactic(auto)]

ghost use Rattle.std.specs.Prelude.{◌≤◌};

use arguments::{decimal_in, hexadecimal_in};
use arrayvec::ArrayVec;
use timecode::{Format, Time};

// Elements or bytes, as many as there is room for.
pub type Elements = ArrayVec<u8, 1024>;

// The word of that number, from 0; empty, where the line has fewer.
pub fn word_in(line: &[u8], word: usize) -> &[u8] {
    line.split(|byte| *byte == b' ').nth(word).unwrap_or(&[])
}

// The line from that word on; empty, where the line has fewer.
fn from_word(line: &[u8], word: usize) -> &[u8] {
    line.splitn(word.saturating_add(1), |byte| *byte == b' ')
        .nth(word)
        .unwrap_or(&[])
}

pub fn hexadecimal(line: &[u8], word: usize) -> u64 {
    hexadecimal_in(word_in(line, word)).unwrap_or(0)
}

pub fn decimal(line: &[u8], word: usize) -> u64 {
    decimal_in(word_in(line, word)).unwrap_or(0)
}

// The lowest 8, 16 or 32 bits of a decimal number.
pub fn byte_in(line: &[u8], word: usize) -> u8 {
    (decimal(line, word) % 256) as u8
}

pub fn u16_in(line: &[u8], word: usize) -> u16 {
    (decimal(line, word) % 65_536) as u16
}

pub fn u32_in(line: &[u8], word: usize) -> u32 {
    (decimal(line, word) % 4_294_967_296) as u32
}

// Words 1 and 2 of a call with a format.
pub fn format_in(line: &[u8]) -> Format {
    Format {
        letter: word_in(line, 1).first().copied().unwrap_or(b' '),
        expression: byte_in(line, 2),
    }
}

// The time of which the year is that word.
pub fn time_in(line: &[u8], word: usize) -> Time
    requires { word ≤ 8 }
{
    Time {
        year: byte_in(line, word),
        day: u16_in(line, word + 1),
        hundredths: u32_in(line, word + 2),
    }
}

// A byte that is no symbol, for a character that stands for none.
fn symbol(character: u8) -> u8 {
    match character {
        b'0' => 0,
        b'1' => 1,
        b'P' => 2,
        b'-' => 3,
        _ => 255,
    }
}

// The byte that two digits are.
fn byte_of(digits: &[u8]) -> u8 {
    (hexadecimal_in(digits).unwrap_or(0) % 256) as u8
}

// A word's elements. A `?` takes two characters behind it, also past the word's end.
pub fn elements_in(line: &[u8], word: usize) -> Elements {
    let mut elements = ArrayVec::new();
    let mut rest = from_word(line, word);
    while let Some((first, tail)) = rest.split_first() {
        match *first {
            // `(empty)` has none
            b' ' | b'(' => break,
            b'?' => {
                let Some((digits, tail)) = tail.split_at_checked(2) else {
                    break;
                };
                let _ = elements.try_push(byte_of(digits));
                rest = tail;
            }
            character => {
                let _ = elements.try_push(symbol(character));
                rest = tail;
            }
        }
    }
    elements
}

// A word's bytes, two hexadecimal digits each.
pub fn bytes_in(line: &[u8], word: usize) -> Elements {
    let mut bytes = ArrayVec::new();
    for digits in from_word(line, word).chunks_exact(2) {
        // `(empty)` has none
        if let [b' ' | b'(', ..] = digits {
            break;
        }
        let _ = bytes.try_push(byte_of(digits));
    }
    bytes
}

// Listeners and their damages, as many as there is room for: the settings, where each listener's damages end, and each damage's number and symbol.
#[derive(Drop)]
pub struct Listeners {
    pub settings: ArrayVec<u8, 1024>,
    pub ends: ArrayVec<usize, 1024>,
    pub numbers: ArrayVec<u64, 1024>,
    pub symbols: ArrayVec<u8, 1024>,
}

impl Listeners {
    fn none() -> Listeners {
        Listeners {
            settings: ArrayVec::new(),
            ends: ArrayVec::new(),
            numbers: ArrayVec::new(),
            symbols: ArrayVec::new(),
        }
    }

    fn add_listener(&mut self, setting: u8) {
        let _ = self.settings.try_push(setting);
        let _ = self.ends.try_push(self.symbols.len());
    }

    // Adds a damage of the newest listener, or of the first where none is there yet.
    fn add_damage(&mut self, number: u64, symbol: u8) {
        let _ = self.numbers.try_push(number);
        let _ = self.symbols.try_push(symbol);
        let end = self.symbols.len();
        if let Some(last) = self.ends.last_mut() {
            *last = end;
        }
    }
}

// A word's listeners, such as `2:88/0,188/1;3:`: each setting before a colon, each damage's number before a slash, and its symbol behind.
pub fn listeners_in(line: &[u8], word: usize) -> Listeners {
    let mut listeners = Listeners::none();
    let mut number = 0;
    for part in from_word(line, word).split_inclusive(|byte| !byte.is_ascii_digit()) {
        let (digits, mark) = match part {
            [digits @ .., mark] if !mark.is_ascii_digit() => (digits, *mark),
            _ => (part, b' '),
        };
        let value = decimal_in(digits).unwrap_or(0);
        match mark {
            b':' => listeners.add_listener((value % 256) as u8),
            b'/' => number = value,
            _ if digits.is_empty() => {}
            _ => {
                listeners.add_damage(number, (value % 256) as u8);
                number = 0;
            }
        }
    }
    listeners
}
