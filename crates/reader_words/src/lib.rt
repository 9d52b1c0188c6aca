// The reader as fourteen words in the caller's memory: unpacked, packed, and what a Feed brought put back there.
// Any words are allowed. The definitions, and that a reader comes back from its words, stand in specs/.
#![tactic(auto)]

ghost use Rattle.std.specs.Prelude.{◌≡◌, ◌%◌};
ghost use Rattle.ffi.specs.Structs.{feed_result_of};
ghost use Rattle.stream.specs.Feeding.{made_of};
ghost use Rattle.reader_words.specs.Words.{words_for, byte_in, reader_in, register_into, words_into, fresh_result_of, fresh_left, fed_with, words_left};

use ffi::{FeedResult, WriteResult};
use refusals::number_of;
use register::Register;
use stream::Reader;
use timecode::{Answer, Format, Time};

// A word that is no byte stands for 255: no letter, no expression and no setting.
#[tactic(auto, unfolding(crate::specs::Words::byte_in))]
pub fn byte_in(word: u64) -> u8
    ensures { result ≡ byte_in word }
{
    u8::try_from(word).unwrap_or(u8::MAX)
}

// The time in three words, to the widths of its parts.
pub fn time_in(year: u64, day: u64, hundredths: u64) -> Time
    ensures { result ≡ record { year = year % 256; day = day % 65536; hundredths = hundredths % 4294967296 } }
{
    Time {
        year: (year % 256) as u8,
        day: (day % 65536) as u16,
        hundredths: (hundredths % 4294967296) as u32,
    }
}

// The reader in the caller's words, whatever they are.
#[tactic(auto, unfolding(crate::specs::Words::reader_in))]
pub fn reader_in(words: [u64; 14]) -> Reader
    ensures { result ≡ reader_in words }
{
    let format = Format {
        letter: byte_in(words[0]),
        expression: byte_in(words[1]),
    };
    let received = Register {
        count: words[4] as usize,
        newest: words[5],
        word0: words[6],
        word1: words[7],
        word2: words[8],
        row: words[9] as usize,
    };
    Reader {
        format,
        setting: byte_in(words[2]),
        place: words[3] as usize,
        received,
        time: time_in(words[10], words[11], words[12]),
        control: words[13],
    }
}

pub fn words_for(reader: Reader) -> [u64; 14]
    ensures { result ≡ words_for reader }
{
    let format = reader.format;
    let received = reader.received;
    let time = reader.time;
    [
        format.letter as u64,
        format.expression as u64,
        reader.setting as u64,
        reader.place as u64,
        received.count as u64,
        received.newest,
        received.word0,
        received.word1,
        received.word2,
        received.row as u64,
        time.year as u64,
        time.day as u64,
        time.hundredths as u64,
        reader.control,
    ]
}

// The place and the register, into the words of a reader.
pub fn put_register(reader: &mut [u64; 14], place: u64, received: Register)
    ensures { reader.new ≡ register_into reader.old place received }
{
    reader[9] = received.row as u64;
    reader[8] = received.word2;
    reader[7] = received.word1;
    reader[6] = received.word0;
    reader[5] = received.newest;
    reader[4] = received.count as u64;
    reader[3] = place;
}

// The reader's words put into the caller's, one by one: where one is as it was, nothing needs to be stored.
#[tactic(auto, unfolding(crate::specs::Words::words_into))]
pub fn put_words(reader: &mut [u64; 14], next: Reader)
    ensures { reader.new ≡ words_into reader.old next }
{
    let format = next.format;
    let time = next.time;
    reader[0] = format.letter as u64;
    reader[1] = format.expression as u64;
    reader[2] = next.setting as u64;
    reader[10] = time.year as u64;
    reader[11] = time.day as u64;
    reader[12] = time.hundredths as u64;
    reader[13] = next.control;
    put_register(reader, next.place as u64, next.received);
}

// A fresh reader, into the caller's words.
pub fn put_fresh(format: Format, setting: u8, reader: &mut [u64; 14]) -> WriteResult
    ensures value { result ≡ fresh_result_of (made_of format setting) }
    ensures reader_after { reader.new ≡ fresh_left format setting reader.old }
{
    let made = Reader::fresh(format, setting);
    match made {
        Ok(fresh) => {
            *reader = words_for(fresh);
            WriteResult { number: 0 }
        }
        Err(refusal) => WriteResult {
            number: number_of(refusal),
        },
    }
}

// What a Feed brought: the reader's new words, or nothing written where it was refused.
pub fn put_fed(next: Reader, answer: Answer, reader: &mut [u64; 14]) -> FeedResult
    ensures value { result ≡ feed_result_of answer }
    ensures reader_after { reader.new ≡ words_left (fed_with next answer) reader.old }
{
    let result = FeedResult::from(answer);
    if result.number == 0 {
        put_words(reader, next);
    }
    result
}
