// The stream reader with its setting k: made fresh, and fed one symbol at a time.
// It follows the one frame that can be under way and counts the accepted frames in a row before it: each frame is read once, when it is whole.
#![tactic(auto)]

ghost use Rattle.std.specs.Prelude.{◌≡◌, true, ◌+◌, ◌%◌, ◌≤◌, ◌<◌, length, take, drop};
ghost use Rattle.timecode.specs.Formats.{is_x, known, size};
ghost use Rattle.timecode.specs.Frames.{next_after, read_of};
ghost use Rattle.timecode.specs.Stream.{is_setting};
ghost use Rattle.tape.specs.InWord.{elements_in};
ghost use Rattle.following.specs.Following.{row_after};
ghost use Rattle.register.specs.Receiving.{frame_of};
ghost use Rattle.stream.specs.Tapes.{is_tape, is_first_day, are_seconds, is_second_later};
ghost use Rattle.stream.specs.Feeding.{is_valid, made_of, with_row, frame_row_of, row_in, row_with, reader_with_row, with_register, reader_with_reading, when_whole, with_symbol_of, next_of, answer_after, answer_of, feed_of};

use clock::next_after;
use frame::read;
use layout::{frame_size, is_known};
use register::{Register, frame_symbols, receive};
use tape::{word_fits, word_meaning};
use timecode::{Answer, Format, Reading, Refusal, SPOILED, Time};

// The place is document 01's: the number of symbols accepted so far, modulo n. Time and control word are those of the row's last frame.
#[derive(Clone, Copy, PartialEq, Eq)]
pub struct Reader {
    pub format: Format,
    pub setting: u8,
    pub place: usize,
    pub received: Register,
    pub time: Time,
    pub control: u64,
}

// The accepted frames in a row that end with the last whole frame: how many they are, and the last one's time and control word.
#[derive(Clone, Copy, PartialEq, Eq)]
pub struct FrameRow {
    pub count: usize,
    pub time: Time,
    pub control: u64,
}

// The reader handed back, with the answer.
#[derive(Clone, Copy, PartialEq, Eq)]
pub struct Fed {
    pub reader: Reader,
    pub answer: Answer,
}

// the settings: from two frames to five, and no longer row needs to be counted
const LEAST_SETTING: u8 = 2;

const GREATEST_SETTING: u8 = 5;

const LONGEST_ROW: usize = 5;

// Number 26.
#[tactic(auto, unfolding(timecode::specs::Stream::is_setting))]
pub fn is_setting(setting: u8) -> bool
    ensures { result ≡ is_setting setting }
{
    LEAST_SETTING <= setting && setting <= GREATEST_SETTING
}

impl Reader {
    // Makes a fresh reader, which has received nothing: no frame is under way, and the newest symbol is no mark.
    pub fn fresh(format: Format, setting: u8) -> Result<Reader, Refusal>
        ensures { result ≡ made_of format setting }
    {
        if !is_known(format) {
            return Err(Refusal::UnknownFormat);
        }
        if !is_setting(setting) {
            return Err(Refusal::InvalidSetting);
        }
        let received = Register {
            count: 0,
            newest: u64::MAX,
            word0: 0,
            word1: 0,
            word2: 0,
            row: 0,
        };
        Ok(Reader {
            format,
            setting,
            place: 0,
            received,
            time: Time::default(),
            control: 0,
        })
    }
}

// Number 13: the format is known, and the place is below n.
#[tactic(auto, unfolding(crate::specs::Feeding::is_valid))]
pub fn is_valid(reader: Reader) -> bool
    ensures { result ≡ is_valid reader }
{
    is_known(reader.format) && reader.place < frame_size(reader.format)
}

pub fn place_after(place: usize, n: usize) -> usize
    requires { (place < n) × (n ≤ 100) }
    ensures { result ≡ (place + 1) % n }
{
    if place + 1 == n {
        return 0;
    }
    place + 1
}

// The format of letter X, with its frame of 25: the newest word holds all of it.
pub fn is_tape(format: Format, n: usize) -> bool
    ensures { result ≡ is_tape format n }
{
    format.letter == b'X' && format.expression == 2 && n == 25
}

// Day 1 and no year, as in every time of letter X.
fn is_first_day(time: Time) -> bool
    ensures { result ≡ is_first_day time }
{
    time.year == 0 && time.day == 1
}

// A whole second, and the next one of the same day.
fn are_seconds(before: u32, after: u32) -> bool
    ensures { result ≡ are_seconds before after }
{
    before < 8_639_900 && before % 100 == 0 && after == before + 100
}

fn is_second_later(before: Time, time: Time) -> bool
    ensures { result ≡ is_second_later before time }
{
    is_first_day(before) && is_first_day(time) && are_seconds(before.hundredths, time.hundredths)
}

// The time is next after the one before. In X the next second of the day is, and nothing else needs to be asked.
fn is_next(format: Format, before: Time, time: Time) -> bool
    ensures { result ≡ next_after format before time }
{
    if is_tape(format, 25) && is_second_later(before, time) {
        return true;
    }
    next_after(format, before, time)
}

// One accepted frame more in the row; it begins anew where the time is not next after the last one's.
fn row_after(format: Format, row: usize, before: Time, time: Time) -> usize
    ensures { result ≡ row_after format row before time }
{
    if row == 0 {
        return 1;
    }
    if is_next(format, before, time) {
        if row < LONGEST_ROW {
            return row + 1;
        }
        return LONGEST_ROW;
    }
    1
}

fn frame_row(count: usize, time: Time, control: u64) -> FrameRow
    ensures { result ≡ frame_row_of count time control }
{
    FrameRow {
        count,
        time,
        control,
    }
}

fn read_part(format: Format, bytes: &[u8], n: usize) -> Result<Reading, Refusal>
    requires { (length bytes.now ≡ 160) × (n ≤ 100) }
    ensures { result ≡ read_of format (take n (drop 32 bytes.now)) }
{
    read(format, &bytes[32..32 + n])
}

fn read_received(format: Format, register: Register, n: usize) -> Result<Reading, Refusal>
    requires { n ≤ 100 }
    ensures { result ≡ read_of format (frame_of register n) }
{
    let bytes = frame_symbols(register, n);
    read_part(format, &bytes, n)
}

// A whole frame's reading: accepted, it joins the row; refused, it ends it.
pub fn row_with_reading(
    format: Format,
    row: FrameRow,
    reading: Result<Reading, Refusal>,
) -> FrameRow
    ensures { result ≡ row_with format row reading }
{
    match reading {
        Ok(Reading { time, control }) => {
            let count = row_after(format, row.count, row.time, time);
            frame_row(count, time, control)
        }
        Err(_) => frame_row(0, row.time, row.control),
    }
}

// A whole frame of letter X, in the newest word: where an element does not fit it is refused, and which one is not asked.
pub fn row_with_tape(format: Format, row: FrameRow, word: u64) -> FrameRow
    requires { (is_x format ≡ true) × (known format ≡ true) }
    ensures { result ≡ row_with format row (read_of format (elements_in word)) }
{
    if word_fits(word) {
        return row_with_reading(format, row, word_meaning(word));
    }
    frame_row(0, row.time, row.control)
}

// A whole frame is read, once.
pub fn row_with_frame(format: Format, row: FrameRow, received: Register, n: usize) -> FrameRow
    requires { n ≤ 100 }
    ensures { result ≡ row_with format row (read_of format (frame_of received n)) }
{
    if is_tape(format, n) {
        return row_with_tape(format, row, received.newest);
    }
    let reading = read_received(format, received, n);
    row_with_reading(format, row, reading)
}

fn row_in(reader: Reader) -> FrameRow
    ensures { result ≡ row_in reader }
{
    frame_row(reader.received.row, reader.time, reader.control)
}

fn register_with_row(register: Register, row: usize) -> Register
    ensures { result ≡ with_row register row }
{
    Register { row, ..register }
}

fn with_row(reader: Reader, row: FrameRow) -> Reader
    ensures { result ≡ reader_with_row reader row }
{
    Reader {
        received: register_with_row(reader.received, row.count),
        time: row.time,
        control: row.control,
        ..reader
    }
}

pub fn reader_with_reading(reader: Reader, reading: Result<Reading, Refusal>) -> Reader
    ensures { result ≡ reader_with_reading reader reading }
{
    let row = row_with_reading(reader.format, row_in(reader), reading);
    with_row(reader, row)
}

fn with_reading(reader: Reader, n: usize) -> Reader
    requires { n ≤ 100 }
    ensures { result ≡ reader_with_reading reader (read_of reader.format (frame_of reader.received n)) }
{
    let row = row_with_frame(reader.format, row_in(reader), reader.received, n);
    with_row(reader, row)
}

pub fn with_register(reader: Reader, place: usize, received: Register) -> Reader
    ensures { result ≡ with_register reader place received }
{
    Reader {
        place,
        received,
        ..reader
    }
}

// A whole frame is read.
pub fn when_whole(reader: Reader, n: usize) -> Reader
    requires { (n ≡ size reader.format) × (n ≤ 100) }
    ensures { result ≡ when_whole reader }
{
    if reader.received.count == n {
        return with_reading(reader, n);
    }
    reader
}

fn with_symbol(reader: Reader, symbol: u8) -> Reader
    requires { is_valid reader ≡ true }
    ensures { result ≡ with_symbol_of reader symbol }
{
    let n = frame_size(reader.format);
    let received = receive(reader.format, n, reader.received, symbol);
    let place = place_after(reader.place, n);
    let next = with_register(reader, place, received);
    when_whole(next, n)
}

// The reader after a Feed; a refused Feed hands back the same.
pub fn next_reader(reader: Reader, symbol: u8) -> Reader
    ensures { result ≡ next_of reader symbol }
{
    if is_valid(reader) {
        if is_setting(reader.setting) {
            if symbol <= SPOILED {
                return with_symbol(reader, symbol);
            }
        }
    }
    reader
}

// The answer to an accepted symbol, from the reader after it alone: a report exactly if a frame is whole and k in a row end with it.
pub fn answer_after(reader: Reader) -> Answer
    ensures { result ≡ answer_after reader }
{
    let received = reader.received;
    if received.count == frame_size(reader.format) {
        if reader.setting as usize <= received.row {
            let time = reader.time;
            return Answer::Report {
                time: time,
                control: reader.control,
            };
        }
    }
    Answer::Quiet
}

// The answer to a Feed after which the reader is `next`: 13, 26, 4, then that reader's.
pub fn answer_to(reader: Reader, symbol: u8, next: Reader) -> Answer
    requires { next ≡ next_of reader symbol }
    ensures { result ≡ answer_of reader symbol }
{
    if is_valid(reader) {
        if is_setting(reader.setting) {
            if SPOILED < symbol {
                return Answer::Refused(Refusal::UnknownSymbol);
            }
            return answer_after(next);
        }
        return Answer::Refused(Refusal::InvalidSetting);
    }
    Answer::Refused(Refusal::InvalidReader)
}

// Feeds one symbol and gives back the reader. A reader that no feeding made is fed as any other, by its fields.
pub fn feed(reader: Reader, symbol: u8) -> Fed
    ensures { result ≡ feed_of reader symbol }
{
    let next = next_reader(reader, symbol);
    Fed {
        reader: next,
        answer: answer_to(reader, symbol, next),
    }
}

// Feeds the recorder's own reader, which is changed in place: one Feed.
pub fn feed_in_place(reader: &mut Reader, symbol: u8) -> Answer
    ensures { (result ≡ (feed_of reader.old symbol).answer) × (reader.new ≡ (feed_of reader.old symbol).reader) }
{
    let fed = feed(*reader, symbol);
    *reader = fed.reader;
    fed.answer
}
