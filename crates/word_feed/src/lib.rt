// One Feed of a reader's fourteen words: the words that change are stored, and no reader is unpacked.
// Only what is refused goes by value, and words that do not fit.
#![tactic(auto)]

ghost use Rattle.std.specs.Prelude.{◌≡◌, false, cond, ◌&&◌, ◌+◌, ◌/◌, ◌%◌, ◌≤◌, leb, get_or, length, set};
ghost use Rattle.timecode.specs.Stream.{is_setting};
ghost use Rattle.register.specs.Receiving.{begun_of};
ghost use Rattle.ffi.specs.Structs.{feed_result_of};
ghost use Rattle.reader_words.specs.Words.{byte_in, register_into, feed_words, words_left};
ghost use Rattle.word_feed.specs.FrameEnds.{row_at, whole_into, end_answer, is_stored, words_if_stored};
ghost use Rattle.word_feed.specs.InPlace.{format_in, other_size, known_size, time_fits, is_ready, Ready, is_inside};

use ffi::FeedResult;
use reader_words::{byte_in, put_fed, put_register, reader_in, time_in};
use register::{Register, begun, opens_frame, push, row_before};
use stream::{FrameRow, feed, place_after, row_with_frame};
use timecode::{Answer, Format, SPOILED};

// The letters as words.
const A: u64 = 65;

const B: u64 = 66;

const D: u64 = 68;

const E: u64 = 69;

const G: u64 = 71;

const H: u64 = 72;

const X: u64 = 88;

pub fn format_in(letter: u64, expression: u64) -> Format
    ensures { result ≡ format_in letter expression }
{
    Format {
        letter: byte_in(letter),
        expression: byte_in(expression),
    }
}

// n for the expressions from the first to the last, 0 for any other.
fn size_within(first: u64, last: u64, expression: u64, n: u64) -> u64
    ensures { result ≡ cond (leb first expression && leb expression last) n 0 }
{
    if first <= expression && expression <= last {
        n
    } else {
        0
    }
}

// n of the letters that take expressions 1 and 2.
#[tactic(auto, unfolding(crate::specs::InPlace::other_size))]
fn other_size(letter: u64) -> u64
    ensures { result ≡ other_size letter }
{
    match letter {
        D | H => 60,
        E | G => 100,
        _ => 0,
    }
}

// n of a known format, 0 for any other. Every Feed and every block asks this: the words are compared as they are, and no row is looked up.
pub fn known_size(letter: u64, expression: u64) -> u64
    ensures { result ≡ known_size letter expression }
{
    match letter {
        X => size_within(2, 2, expression, 25),
        A | B => size_within(0, 7, expression, 100),
        _ => size_within(1, 2, expression, other_size(letter)),
    }
}

// Number 26 passes.
pub fn is_set(setting: u64) -> bool
    ensures { result ≡ is_setting (byte_in setting) }
{
    2 <= setting && setting <= 5
}

#[tactic(auto, unfolding(crate::specs::InPlace::time_fits))]
fn time_fits(year: u64, day: u64, hundredths: u64) -> bool
    ensures { result ≡ time_fits year day hundredths }
{
    year < 256 && day < 65536 && hundredths < 4294967296
}

pub fn put_begun(reader: &mut [u64; 14], place: u64, newest: u64, count: u64, row: u64)
    ensures { reader.new ≡ register_into reader.old place (begun_of newest count row) }
{
    put_register(reader, place, begun(newest, count as usize, row as usize));
}

pub fn put_continued(reader: &mut [u64; 14], place: u64, newest: u64, count: u64)
    ensures { reader.new ≡ set (set (set reader.old 5 newest) 4 count) 3 place }
{
    reader[5] = newest;
    reader[4] = count;
    reader[3] = place;
}

// The symbol fills a word of the frame, its first, second or third 32.
fn put_full(reader: &mut [u64; 14], place: u64, newest: u64, count: u64)
    requires { (1 ≤ count / 32) × (count / 32 ≤ 3) }
    ensures { reader.new ≡ set (set (set (set reader.old (5 + count / 32) newest) 5 newest) 4 count) 3 place }
{
    reader[5 + (count / 32) as usize] = newest;
    put_continued(reader, place, newest, count);
}

fn feed_by_value(reader: &mut [u64; 14], symbol: u8) -> Answer
    ensures value { result ≡ (feed_words reader.old symbol).answer }
    ensures reader_after { reader.new ≡ words_left (feed_words reader.old symbol) reader.old }
{
    let fed = feed(reader_in(*reader), symbol);
    let next = fed.reader;
    let answer = fed.answer;
    put_fed(next, answer, reader);
    answer
}

// A symbol fed to words that pass, if it passes too and makes no frame whole: whether it was fed.
pub fn feed_inside(reader: &mut [u64; 14], symbol: u8, n: u64) -> bool
    requires { Ready reader.old n }
    ensures value { result ≡ is_inside reader.old symbol n }
    ensures reader_after { reader.new ≡ cond (is_inside reader.old symbol n) (words_left (feed_words reader.old symbol) reader.old) reader.old }
{
    if SPOILED < symbol {
        return false;
    }
    let place = place_after(reader[3] as usize, n as usize) as u64;
    let count = reader[4];
    let newest = push(reader[5], symbol);
    if opens_frame(format_in(reader[0], reader[1]), reader[5], symbol) {
        let row = row_before(count == n, reader[9] as usize) as u64;
        put_begun(reader, place, newest, 1, row);
        return true;
    }
    if count == 0 {
        put_continued(reader, place, newest, 0);
        return true;
    }
    if count < n - 1 {
        if count % 32 != 31 {
            put_continued(reader, place, newest, count + 1);
            return true;
        }
        put_full(reader, place, newest, count + 1);
        return true;
    }
    if n <= count {
        put_begun(reader, place, newest, 0, 0);
        return true;
    }
    false
}

pub fn row_at(count: u64, year: u64, day: u64, hundredths: u64, control: u64) -> FrameRow
    ensures { result ≡ row_at count year day hundredths control }
{
    FrameRow {
        count: count as usize,
        time: time_in(year, day, hundredths),
        control,
    }
}

// The frame is whole: its full words stand already.
fn put_whole(reader: &mut [u64; 14], place: u64, newest: u64, n: u64, row: FrameRow)
    ensures { reader.new ≡ whole_into reader.old place newest n row }
{
    let time = row.time;
    reader[10] = time.year as u64;
    reader[11] = time.day as u64;
    reader[12] = time.hundredths as u64;
    reader[13] = row.control;
    reader[9] = row.count as u64;
    reader[5] = newest;
    reader[4] = n;
    reader[3] = place;
}

// The end of a frame, with the row that ends with it: stored, unless it reports and there is no room for the report.
pub fn end_frame(reader: &mut [u64; 14], newest: u64, n: u64, row: FrameRow, room: bool) -> Answer
    requires { Ready reader.old n }
    ensures value { result ≡ end_answer (get_or reader.old 2 0) row }
    ensures reader_after { reader.new ≡ cond (is_stored room (end_answer (get_or reader.old 2 0) row)) (whole_into reader.old ((get_or reader.old 3 0 + 1) % n) newest n row) reader.old }
{
    let place = place_after(reader[3] as usize, n as usize) as u64;
    let time = row.time;
    let control = row.control;
    if reader[2] <= row.count as u64 {
        if room {
            put_whole(reader, place, newest, n, row);
        }
        return Answer::Report {
            time: time,
            control: control,
        };
    }
    put_whole(reader, place, newest, n, row);
    Answer::Quiet
}

// A symbol that is not fed inside a frame: above 3 it is refused, else a frame is whole with it, which is read out of the words.
pub fn feed_outside(reader: &mut [u64; 14], symbol: u8, n: u64, room: bool) -> Answer
    requires { Ready reader.old n × (length reader.old ≡ 14) × (is_inside reader.old symbol n ≡ false) }
    ensures value { result ≡ (feed_words reader.old symbol).answer }
    ensures reader_after { reader.new ≡ words_if_stored room (feed_words reader.old symbol) reader.old }
{
    if SPOILED < symbol {
        return feed_by_value(reader, symbol);
    }
    let newest = push(reader[5], symbol);
    let received = Register {
        count: n as usize,
        newest: newest,
        word0: reader[6],
        word1: reader[7],
        word2: reader[8],
        row: reader[9] as usize,
    };
    let before = row_at(reader[9], reader[10], reader[11], reader[12], reader[13]);
    let row = row_with_frame(
        format_in(reader[0], reader[1]),
        before,
        received,
        n as usize,
    );
    end_frame(reader, newest, n, row, room)
}

// A symbol fed to words that pass.
fn feed_ready(reader: &mut [u64; 14], symbol: u8, n: u64) -> FeedResult
    requires { Ready reader.old n × (length reader.old ≡ 14) }
    ensures value { result ≡ feed_result_of (feed_words reader.old symbol).answer }
    ensures reader_after { reader.new ≡ words_left (feed_words reader.old symbol) reader.old }
{
    if feed_inside(reader, symbol, n) {
        return FeedResult::from(Answer::Quiet);
    }
    FeedResult::from(feed_outside(reader, symbol, n, true))
}

// Numbers 13 and 26 pass, with n of a known format, and the words of the time fit their widths. By value, the words are known to be fourteen.
#[tactic(auto, unfolding(crate::specs::InPlace::is_ready))]
pub fn is_ready(words: [u64; 14], n: u64) -> bool
    ensures value { result ≡ is_ready words n }
    ensures words_len { length words ≡ 14 }
{
    words[3] < n && is_set(words[2]) && time_fits(words[10], words[11], words[12])
}

pub fn feed_words(reader: &mut [u64; 14], symbol: u8) -> FeedResult
    ensures value { result ≡ feed_result_of (feed_words reader.old symbol).answer }
    ensures reader_after { reader.new ≡ words_left (feed_words reader.old symbol) reader.old }
{
    let n = known_size(reader[0], reader[1]);
    if is_ready(*reader, n) {
        return feed_ready(reader, symbol, n);
    }
    FeedResult::from(feed_by_value(reader, symbol))
}
