// The run of a stride in a reader's fourteen words: symbols after the stride's first, none of which makes a frame whole.
// Many are packed at once, few are received one by one; the words are stored once for all of them.
#![tactic(auto)]

ghost use Rattle.std.specs.Prelude.{◌≡◌, Bool, ◌+◌, ◌-◌, ◌%◌, ◌≤◌, ◌<◌, get_or, length};
ghost use Rattle.openings.specs.Accepted.{accepted_in};
ghost use Rattle.reader_words.specs.Words.{register_into};
ghost use Rattle.word_feed.specs.InPlace.{register_in, Ready};
ghost use Rattle.word_stride.specs.FewSymbols.{few_of, count_with, begun_with};
ghost use Rattle.word_stride.specs.WordRuns.{RunsIn};

use reader_words::put_register;
use register::{Register, opens_frame, push};
use stride::{place_after_many, run_from};
use timecode::SPOILED;
use word_feed::{format_in, put_begun, put_continued};

// Where fewer symbols are left in the block, they are received one by one: that is faster then, as measured.
pub const FEW_SYMBOLS: usize = 16;

// The furthest end of a run: before the frame's last symbol, and outside a frame 4,096 symbols, so that the sum with the place is small.
fn run_end(count: u64, n: u64, from: usize, to: usize) -> usize
    requires { (count < n) × (n ≤ 100) × (from ≤ to) }
    ensures { (from ≤ result) × (result ≤ to) × (result - from ≤ 4096) × (1 ≤ count → count + (result - from) < n) }
{
    let most = if count == 0 {
        4096
    } else {
        (n - 1 - count) as usize
    };
    from + most.min(to - from)
}

// The run from one index on, up to another at most: where it stopped.
fn feed_many(reader: &mut [u64; 14], n: u64, symbols: &[u8], from: usize, to: usize) -> usize
    requires { Ready reader.old n × (length reader.old ≡ 14) × (get_or reader.old 4 0 < n) × (1 ≤ from) × (from ≤ to) × (to ≤ accepted_in symbols.now) × (get_or reader.old 5 0 % 4 ≡ get_or symbols.now (from - 1) 0) }
    ensures { RunsIn reader.old n symbols.now from to reader.new result }
{
    if from == to {
        return from;
    }
    let first = Register {
        count: reader[4] as usize,
        newest: reader[5],
        word0: reader[6],
        word1: reader[7],
        word2: reader[8],
        row: reader[9] as usize,
    };
    let end = run_end(reader[4], n, from, to);
    let format = format_in(reader[0], reader[1]);
    let run = run_from(format, n as usize, first, symbols, from, end, to);
    let received = run.received;
    let stop = run.stop;
    let place = place_after_many(reader[3] as usize, stop - from, n as usize);
    put_register(reader, place as u64, received);
    stop
}

// The furthest end of a run of few symbols: before the one that makes the frame whole, and before one that fills a word of it.
fn few_end(count: u64, n: u64, from: usize, to: usize) -> usize
    requires { (count < n) × (n ≤ 100) × (from ≤ to) }
    ensures { (from ≤ result) × (result ≤ to) × (count % 32 + (result - from) ≤ 31) × (count + (result - from) < n) }
{
    let room = (n - 1 - count).min(31 - count % 32) as usize;
    from + room.min(to - from)
}

// How many symbols the frame has with one more, which begins a frame or not; 0 where none is under way.
fn count_with(opens: bool, count: u64) -> u64
    requires { count ≤ 100 }
    ensures { result ≡ count_with opens count }
{
    if opens {
        1
    } else if count == 0 {
        0
    } else {
        count + 1
    }
}

fn begun_with(begun: bool, opens: bool) -> bool
    ensures { result ≡ begun_with begun opens }
{
    opens || begun
}

// So many symbols are received. Where a frame began among them, the one before it was given up.
fn put_few(reader: &mut [u64; 14], n: u64, taken: usize, newest: u64, count: u64, begun: bool)
    requires { (get_or reader.old 3 0 < n) × (n ≤ 100) × (taken ≤ 15) }
    ensures { reader.new ≡ register_into reader.old ((get_or reader.old 3 0 + taken) % n) (few_of (register_in reader.old) begun newest count) }
{
    let place = place_after_many(reader[3] as usize, taken, n as usize) as u64;
    if begun {
        put_begun(reader, place, newest, count, 0);
    } else {
        put_continued(reader, place, newest, count);
    }
}

// The run from one index on of few symbols, with openings among them: where it stopped.
fn feed_few(reader: &mut [u64; 14], n: u64, symbols: &[u8], from: usize) -> usize
    requires { Ready reader.old n × (length reader.old ≡ 14) × (get_or reader.old 4 0 < n) × (from ≤ accepted_in symbols.now) × (length symbols.now - from ≤ 15) }
    ensures { RunsIn reader.old n symbols.now from (accepted_in symbols.now) reader.new result }
{
    if from == symbols.len() {
        return from;
    }
    let end = few_end(reader[4], n, from, symbols.len());
    let format = format_in(reader[0], reader[1]);
    let mut newest = reader[5];
    let mut count = reader[4];
    let mut begun = false;
    for i in from..end {
        let symbol = symbols[i];
        if SPOILED < symbol {
            put_few(reader, n, i - from, newest, count, begun);
            return i;
        }
        let opens = opens_frame(format, newest, symbol);
        count = count_with(opens, count);
        begun = begun_with(begun, opens);
        newest = push(newest, symbol);
    }
    put_few(reader, n, end - from, newest, count, begun);
    end
}

// The run from one index on: where it stopped. Of a block that has more than few symbols, it is known how many stand before the first above 3.
pub fn feed_run(reader: &mut [u64; 14], n: u64, symbols: &[u8], from: usize, known: usize) -> usize
    requires { Ready reader.old n × (length reader.old ≡ 14) × (get_or reader.old 4 0 < n) × (1 ≤ from) × (from ≤ accepted_in symbols.now) × (get_or reader.old 5 0 % 4 ≡ get_or symbols.now (from - 1) 0) × (16 < length symbols.now → known ≡ accepted_in symbols.now) }
    ensures { RunsIn reader.old n symbols.now from (accepted_in symbols.now) reader.new result }
{
    if symbols.len() - from < FEW_SYMBOLS {
        return feed_few(reader, n, symbols, from);
    }
    feed_many(reader, n, symbols, from, known)
}
