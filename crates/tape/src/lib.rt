// The frame of letter X, document 02's "XR3 tapes": a mark, the digits of hours, minutes and seconds, each with its highest weight
// first, and four spoiled elements. It assumes 25 elements; Write's checks and Read's first two are the caller's.
#![tactic(auto)]

ghost use Rattle.std.specs.Prelude.{◌≡◌, ℕ, ◌+◌, ◌*◌, ◌/◌, ◌%◌, ◌^◌, ◌≤◌, ◌<◌, true, cond, ◌&&◌, ltb, length};
ghost use Rattle.timecode.specs.Formats.{is_x, known};
ghost use Rattle.timecode.specs.Frames.{written, are_symbols, read_of, Valid};
ghost use Rattle.timecode.specs.declared.Format.{Format};
ghost use Rattle.tape.specs.Tape.{DigitPut, RunsPut, number_runs, number_digits, blank_at, blank};
ghost use Rattle.tape.specs.Readings.{digit_of, is_number, daytime, digits_meaning, meaning_of, mark_fits, element_is};
ghost use Rattle.tape.specs.Offences.{all_fit, LowestBelow, offence_at};
ghost use Rattle.tape.specs.InWord.{element_in, elements_in, word_fits};

use timecode::{MARK, Reading, Refusal, SPOILED, Time};

const ELEMENTS: usize = 25;

// The lowest index that offends where none does: past the end of the frame.
const NOWHERE: u8 = 255;

// Bit k of a digit.
fn bit(digit: u32, k: usize) -> u8
    requires { k < 4 }
    ensures { result ≡ digit / 2 ^ k % 2 }
{
    ((digit >> k) % 2) as u8
}

fn put_digit(frame: &mut [u8], start: usize, width: usize, digit: u32)
    requires { (start + width ≤ length frame.old) × (width ≤ 4) }
    ensures { DigitPut start width digit frame.old width frame.new }
{
    for j in 0..width {
        frame[start + j] = bit(digit, width - 1 - j);
    }
}

// The tens, of so many elements, then the units.
fn put_number(frame: &mut [u8], start: usize, tens: usize, number: u32)
    requires { (start + tens + 4 ≤ length frame.old) × (tens ≤ 4) }
    ensures { RunsPut (number_runs start tens) (number_digits number) frame.old frame.new }
{
    put_digit(frame, start, tens, number / 10 % 10);
    put_digit(frame, start + tens, 4, number % 10);
}

fn blank_at(index: usize) -> u8
    ensures { result ≡ blank_at index }
{
    if index == 0 { MARK } else { SPOILED }
}

// What stands where no digit does.
fn put_blank(frame: &mut [u8])
    requires { length frame.old ≡ 25 }
    ensures { frame.new ≡ blank }
{
    for i in 0..ELEMENTS {
        frame[i] = blank_at(i);
    }
}

// Writes a time that X takes.
pub fn write_tape(time: Time, frame: &mut [u8])
    requires { length frame.old ≡ 25 }
    ensures { (length frame.new ≡ 25) × ((f : Format) (control : ℕ) → is_x f ≡ true → Valid f time control → frame.new ≡ written f time control) }
{
    let seconds = time.hundredths / 100;
    put_blank(frame);
    put_number(frame, 1, 2, seconds / 60 / 60);
    put_number(frame, 7, 3, seconds / 60 % 60);
    put_number(frame, 14, 3, seconds % 60);
}

// The digit that stands there.
fn digit_at(frame: &[u8], start: usize, width: usize) -> u32
    requires { (start + width ≤ length frame.now) × (width ≤ 4) }
    ensures { (result ≡ digit_of frame.now start width) × (result ≤ 3825) }
{
    let mut digit = 0u32;
    for j in 0..width {
        digit = u32::from(frame[start + j]) + 2 * digit;
    }
    digit
}

// The units are at most 9 and the number is at most its last, below 100: so the tens are at most 9 too.
fn is_number(tens: u32, units: u32, last: u32) -> bool
    requires { (tens ≤ 3825) × (units ≤ 3825) }
    ensures { result ≡ is_number tens units last }
{
    units <= 9 && units + 10 * tens <= last
}

fn time_of(hours: u32, minutes: u32, seconds: u32) -> Time
    requires { (hours ≤ 23) × (minutes ≤ 59) × (seconds ≤ 59) }
    ensures { result ≡ daytime hours minutes seconds }
{
    Time {
        year: 0,
        day: Time::FIRST_DAY,
        hundredths: ((hours * 60 + minutes) * 60 + seconds) * 100,
    }
}

// What the digits say.
fn meaning_of(
    hour_tens: u32,
    hour_units: u32,
    minute_tens: u32,
    minute_units: u32,
    second_tens: u32,
    second_units: u32,
) -> Result<Reading, Refusal>
    requires { (hour_tens ≤ 3825) × (hour_units ≤ 3825) × (minute_tens ≤ 3825) × (minute_units ≤ 3825) × (second_tens ≤ 3825) × (second_units ≤ 3825) }
    ensures { result ≡ digits_meaning hour_tens hour_units minute_tens minute_units second_tens second_units }
{
    if !is_number(hour_tens, hour_units, 23) {
        return Err(Refusal::InvalidDigit);
    }
    if !is_number(minute_tens, minute_units, 59) {
        return Err(Refusal::InvalidDigit);
    }
    if !is_number(second_tens, second_units, 59) {
        return Err(Refusal::InvalidDigit);
    }
    let hours = hour_units + 10 * hour_tens;
    let minutes = minute_units + 10 * minute_tens;
    let seconds = second_units + 10 * second_tens;
    Ok(Reading {
        time: time_of(hours, minutes, seconds),
        control: 0,
    })
}

fn meaning(frame: &[u8]) -> Result<Reading, Refusal>
    requires { length frame.now ≡ 25 }
    ensures { result ≡ meaning_of frame.now }
{
    meaning_of(
        digit_at(frame, 1, 2),
        digit_at(frame, 3, 4),
        digit_at(frame, 7, 3),
        digit_at(frame, 10, 4),
        digit_at(frame, 14, 3),
        digit_at(frame, 17, 4),
    )
}

// A mark stands at 0, and nowhere else.
fn mark_fits(index: usize, symbol: u8) -> bool
    ensures { result ≡ mark_fits index symbol }
{
    if index == 0 {
        symbol == MARK
    } else {
        symbol != MARK
    }
}

fn element_is(index: usize, symbol: u8) -> bool
    ensures { result ≡ element_is index symbol }
{
    match index {
        0 => symbol == MARK,
        1..=20 => symbol < MARK,
        _ => symbol == SPOILED,
    }
}

// Every element fits. It looks at each of them: a loop that never ends early is compiled to take many at a time.
fn all_fit(frame: &[u8]) -> bool
    requires { length frame.now ≡ 25 }
    ensures { result ≡ all_fit frame.now 25 }
{
    let mut all = true;
    for index in 0..ELEMENTS {
        all &= element_is(index, frame[index]);
    }
    all
}

// No symbol is above 3. Like `all_fit` it looks at every element.
fn are_symbols(frame: &[u8]) -> bool
    requires { length frame.now ≡ 25 }
    ensures { result ≡ are_symbols frame.now }
{
    let mut all = true;
    for i in 0..ELEMENTS {
        all &= frame[i] <= SPOILED;
    }
    all
}

// The index where its element offends, else no index.
fn place(index: usize, symbol: u8) -> u8
    requires { index < 25 }
    ensures { result ≡ cond (element_is index symbol) 255 index }
{
    if element_is(index, symbol) {
        NOWHERE
    } else {
        index as u8
    }
}

// The lowest index that offends. Like `all_fit` it looks at every element.
fn lowest_offending(frame: &[u8]) -> u8
    requires { length frame.now ≡ 25 }
    ensures { LowestBelow frame.now 25 result }
{
    let mut lowest = NOWHERE;
    for index in 0..ELEMENTS {
        lowest = lowest.min(place(index, frame[index]));
    }
    lowest
}

// What offends at an index where something does.
fn offence_at(index: usize, symbol: u8) -> Refusal
    ensures { result ≡ offence_at index symbol }
{
    if mark_fits(index, symbol) {
        return Refusal::InvalidElement(index);
    }
    Refusal::MisplacedMark(index)
}

// The time that the frame's elements say.
pub fn read_tape(frame: &[u8]) -> Result<Reading, Refusal>
    requires { length frame.now ≡ 25 }
    ensures { (f : Format) → is_x f ≡ true → known f ≡ true → result ≡ read_of f frame.now }
{
    if all_fit(frame) {
        return meaning(frame);
    }
    if !are_symbols(frame) {
        return Err(Refusal::UnknownSymbol);
    }
    let index = lowest_offending(frame) as usize;
    Err(offence_at(index, frame[index]))
}

// An element of the frame in a word, two bits for each, the last one lowest.
fn element_in(word: u64, index: usize) -> u8
    requires { index < 25 }
    ensures { result ≡ element_in word index }
{
    ((word >> (48 - index * 2)) % 4) as u8
}

fn digit_in(word: u64, start: usize, width: usize) -> u32
    requires { (start + width ≤ 25) × (width ≤ 4) }
    ensures { (result ≡ digit_of (elements_in word) start width) × (result ≤ 3825) }
{
    let mut digit = 0u32;
    for j in 0..width {
        digit = u32::from(element_in(word, start + j)) + 2 * digit;
    }
    digit
}

// The bits that are the same in every frame: both of element 0 and of 21-24, the higher one of 1-20; and what they are there, a mark, no
// mark and nothing spoiled, four spoiled elements.
const FIXED_BITS: u64 = 0x3_aaaa_aaaa_aaff;

const FIXED: u64 = 0x2_0000_0000_00_ff;

// Every element of the frame in a word fits: where one does not, Read refuses the frame.
pub fn word_fits(word: u64) -> bool
    ensures { result ≡ word_fits word }
{
    word & FIXED_BITS == FIXED
}

// What the digits of the frame in a word say: where every element fits, Read's answer.
pub fn word_meaning(word: u64) -> Result<Reading, Refusal>
    ensures { result ≡ meaning_of (elements_in word) }
{
    meaning_of(
        digit_in(word, 1, 2),
        digit_in(word, 3, 4),
        digit_in(word, 7, 3),
        digit_in(word, 10, 4),
        digit_in(word, 14, 3),
        digit_in(word, 17, 4),
    )
}
