// One block of a reader's fourteen words, stride by stride: a first symbol, whatever it does, then a run of symbols that neither begin a frame nor make one whole.
// Blocks of every size go this way. It checks 13, 26, 3.
#![tactic(auto)]

ghost use Rattle.std.specs.Prelude.{◌≡◌, true, false, ◌&&◌, ◌+◌, ◌-◌, ◌≤◌, ◌<◌, eqb, ltb, get_or, length};
ghost use Rattle.timecode.specs.Frames.{read_of};
ghost use Rattle.tape.specs.InWord.{elements_in};
ghost use Rattle.openings.specs.Accepted.{accepted_in};
ghost use Rattle.register.specs.Receiving.{frame_of};
ghost use Rattle.receive_many.specs.ManySymbols.{slice};
ghost use Rattle.stream.specs.Feeding.{row_with};
ghost use Rattle.stream.specs.Tapes.{is_tape};
ghost use Rattle.reader_words.specs.Words.{reader_in, feed_words};
ghost use Rattle.word_feed.specs.FrameEnds.{whole_register, words_if_stored};
ghost use Rattle.word_feed.specs.InPlace.{Ready, is_inside};
ghost use Rattle.block.specs.Blocks.{report_at, lists, are_records, lists_left, block_for};
ghost use Rattle.block.specs.Blocks.{block_taken};
ghost use Rattle.block_words.specs.BlockWords.{block_result_of, feed_block_words, block_words_left};
ghost use Rattle.word_block.specs.BlockChecks.{time_fitted};
ghost use Rattle.word_block.specs.Standing.{set_record};

use block::{Stop, Taken};
use block_words::BlockResult;
use frame::read;
use openings::accepted;
use register::push;
use stream::{FrameRow, is_tape, row_with_reading, row_with_tape};
use timecode::{Answer, Format, Refusal, SPOILED, Time};
use word_feed::{end_frame, feed_inside, feed_outside, format_in, is_set, known_size, row_at};
use word_stride::{FEW_SYMBOLS, feed_run};

fn taken_at(symbols: usize, reports: usize, stop: Stop) -> Result<Taken, Refusal>
    ensures { result ≡ block_taken symbols reports stop }
{
    Ok(Taken {
        symbols,
        reports,
        stop,
    })
}

fn put_report(
    indexes: &mut [usize],
    years: &mut [u8],
    days: &mut [u16],
    hundredths: &mut [u32],
    controls: &mut [u64],
    at: usize,
    index: usize,
    time: Time,
    control: u64,
)
    requires { (at < length indexes.old) × (at < length years.old) × (at < length days.old) × (at < length hundredths.old) × (at < length controls.old) }
    ensures { lists indexes.new years.new days.new hundredths.new controls.new ≡ set_record (lists indexes.old years.old days.old hundredths.old controls.old) at (report_at index time control) }
{
    indexes[at] = index;
    years[at] = time.year;
    days[at] = time.day;
    hundredths[at] = time.hundredths;
    controls[at] = control;
}

// How many symbols stand before the first above 3, of a block that has more than few: of few, each is looked at when it is received.
fn known_in(symbols: &[u8]) -> usize
    ensures { 16 < length symbols.now → result ≡ accepted_in symbols.now }
{
    if symbols.len() <= FEW_SYMBOLS {
        0
    } else {
        accepted(symbols)
    }
}

// The symbol i is refused, or the block has not all of the frame that it makes whole.
fn is_in_words(symbol: u8, i: usize, n: u64) -> bool
    requires { 1 ≤ n }
    ensures { result ≡ false → (symbol ≤ 3) × (n ≤ i + 1) }
{
    SPOILED < symbol || i < (n - 1) as usize
}

// The row with the frame that ends in the block, which is read where it lies: in X in the newest word, which has all of it.
fn row_in_block(
    format: Format,
    n: u64,
    before: FrameRow,
    newest: u64,
    symbols: &[u8],
    end: usize,
) -> FrameRow
    requires { (n ≤ end) × (end ≤ length symbols.now) × (is_tape format n ≡ true → slice symbols.now (end - n) end ≡ elements_in newest) }
    ensures { result ≡ row_with format before (read_of format (slice symbols.now (end - n) end)) }
{
    if is_tape(format, n as usize) {
        return row_with_tape(format, before, newest);
    }
    let from = end - n as usize;
    let reading = read(format, &symbols[from..end]);
    row_with_reading(format, before, reading)
}

// Symbol i is not fed inside a frame. A frame that is whole with it is read in the block, where the block has all of it.
fn feed_end(reader: &mut [u64; 14], n: u64, symbols: &[u8], i: usize, room: bool) -> Answer
    requires { Ready reader.old n × (length reader.old ≡ 14) × (i < length symbols.now) × (is_inside reader.old (get_or symbols.now i 0) n ≡ false) × (get_or symbols.now i 0 ≤ 3 → n ≤ i + 1 → frame_of (whole_register reader.old (get_or symbols.now i 0) n) n ≡ slice symbols.now (i + 1 - n) (i + 1)) }
    ensures value { result ≡ (feed_words reader.old (get_or symbols.now i 0)).answer }
    ensures reader_after { reader.new ≡ words_if_stored room (feed_words reader.old (get_or symbols.now i 0)) reader.old }
{
    let symbol = symbols[i];
    if is_in_words(symbol, i, n) {
        return feed_outside(reader, symbol, n, room);
    }
    let newest = push(reader[5], symbol);
    let format = format_in(reader[0], reader[1]);
    let before = row_at(reader[9], reader[10], reader[11], reader[12], reader[13]);
    let row = row_in_block(format, n, before, newest, symbols, i + 1);
    end_frame(reader, newest, n, row, room)
}

fn feed_strides(
    reader: &mut [u64; 14],
    n: u64,
    symbols: &[u8],
    indexes: &mut [usize],
    years: &mut [u8],
    days: &mut [u16],
    hundredths: &mut [u32],
    controls: &mut [u64],
) -> Result<Taken, Refusal>
    requires { Ready reader.old n × (length reader.old ≡ 14) × (are_records (lists indexes.old years.old days.old hundredths.old controls.old) ≡ true) }
    ensures value { result ≡ (feed_block_words reader.old symbols.now (lists indexes.old years.old days.old hundredths.old controls.old)).answer }
    ensures reader_after { reader.new ≡ block_words_left (feed_block_words reader.old symbols.now (lists indexes.old years.old days.old hundredths.old controls.old)) reader.old }
    ensures controls_after { lists indexes.new years.new days.new hundredths.new controls.new ≡ lists_left (block_for (reader_in reader.old) symbols.now (lists indexes.old years.old days.old hundredths.old controls.old)) (lists indexes.old years.old days.old hundredths.old controls.old) }
{
    let known = known_in(symbols);
    let mut reports = 0;
    let mut i = 0;
    // No `for`: how many symbols a turn takes, the run says.
    while i < symbols.len() {
        if feed_inside(reader, symbols[i], n) {
            i = feed_run(reader, n, symbols, i + 1, known);
            continue;
        }
        let answer = feed_end(reader, n, symbols, i, reports < indexes.len());
        match answer {
            Answer::Quiet => {
                i += 1;
                continue;
            }
            Answer::Report { time, control } => {
                if reports == indexes.len() {
                    return taken_at(i, reports, Stop::NoRoom);
                }
                put_report(
                    indexes, years, days, hundredths, controls, reports, i, time, control,
                );
                reports += 1;
                i += 1;
                continue;
            }
            Answer::Refused(_) => return taken_at(i, reports, Stop::UnknownSymbol),
        }
    }
    taken_at(i, reports, Stop::AllTaken)
}

fn are_equal(first: usize, second: usize, third: usize, fourth: usize, fifth: usize) -> bool
    ensures { result ≡ (eqb second first && (eqb third first && (eqb fourth first && eqb fifth first))) }
{
    second == first && third == first && fourth == first && fifth == first
}

// The place is below n, which is 0 where the format is not known. By value, the words are known to be fourteen.
fn is_placed(words: [u64; 14], n: u64) -> bool
    ensures value { result ≡ ltb (get_or words 3 0) n }
    ensures words_len { length words ≡ 14 }
{
    words[3] < n
}

// The words of the time, to their widths.
fn fit_time(reader: &mut [u64; 14])
    ensures { reader.new ≡ time_fitted reader.old }
{
    reader[10] %= 256;
    reader[11] %= 65536;
    reader[12] %= 4294967296;
}

// Feeds a block of symbols. A report is a record of the lent list: the index of its symbol in the block, its year, its day, its
// hundredths and its control word, each at one entry of a list of its own.
pub fn feed_block_in_words(
    reader: &mut [u64; 14],
    symbols: &[u8],
    indexes: &mut [usize],
    years: &mut [u8],
    days: &mut [u16],
    hundredths: &mut [u32],
    controls: &mut [u64],
) -> Result<Taken, Refusal>
    ensures value { result ≡ (feed_block_words reader.old symbols.now (lists indexes.old years.old days.old hundredths.old controls.old)).answer }
    ensures reader_after { reader.new ≡ block_words_left (feed_block_words reader.old symbols.now (lists indexes.old years.old days.old hundredths.old controls.old)) reader.old }
    ensures controls_after { lists indexes.new years.new days.new hundredths.new controls.new ≡ lists_left (block_for (reader_in reader.old) symbols.now (lists indexes.old years.old days.old hundredths.old controls.old)) (lists indexes.old years.old days.old hundredths.old controls.old) }
{
    let n = known_size(reader[0], reader[1]);
    if is_placed(*reader, n) {
        if is_set(reader[2]) {
            if are_equal(
                indexes.len(),
                years.len(),
                days.len(),
                hundredths.len(),
                controls.len(),
            ) {
                fit_time(reader);
                return feed_strides(
                    reader, n, symbols, indexes, years, days, hundredths, controls,
                );
            }
            return Err(Refusal::WrongLength);
        }
        return Err(Refusal::InvalidSetting);
    }
    Err(Refusal::InvalidReader)
}

pub fn feed_block_words(
    reader: &mut [u64; 14],
    symbols: &[u8],
    indexes: &mut [usize],
    years: &mut [u8],
    days: &mut [u16],
    hundredths: &mut [u32],
    controls: &mut [u64],
) -> BlockResult
    ensures value { result ≡ block_result_of (feed_block_words reader.old symbols.now (lists indexes.old years.old days.old hundredths.old controls.old)).answer }
    ensures reader_after { reader.new ≡ block_words_left (feed_block_words reader.old symbols.now (lists indexes.old years.old days.old hundredths.old controls.old)) reader.old }
    ensures controls_after { lists indexes.new years.new days.new hundredths.new controls.new ≡ lists_left (block_for (reader_in reader.old) symbols.now (lists indexes.old years.old days.old hundredths.old controls.old)) (lists indexes.old years.old days.old hundredths.old controls.old) }
{
    let answer = feed_block_in_words(reader, symbols, indexes, years, days, hundredths, controls);
    BlockResult::from(answer)
}
