// Long streams, most of them damaged: for each case, format and setting how many symbols a reader accepts, reports and refuses, and a
// checksum over its reports. The expected lines are from an independent plain version of the rules in another language.
#![tactic(auto)]

ghost use Rattle.std.specs.Prelude.{◌≡◌};
ghost use Rattle.stream.specs.Feeding.{feed_of};

use clock::step;
use frame::write;
use layout::{frame_interval, frame_size};
use program_io::{print, print_number};
use register::Register;
use stream::{Fed, Reader, feed_in_place};
use timecode::{Answer, Format, MARK, ONE, SPOILED, Time, ZERO};

// The letter and the expression of each format.
const FORMATS: [(u8, u8); 25] = [
    (b'A', 0),
    (b'A', 1),
    (b'A', 2),
    (b'A', 3),
    (b'A', 4),
    (b'A', 5),
    (b'A', 6),
    (b'A', 7),
    (b'B', 0),
    (b'B', 1),
    (b'B', 2),
    (b'B', 3),
    (b'B', 4),
    (b'B', 5),
    (b'B', 6),
    (b'B', 7),
    (b'D', 1),
    (b'D', 2),
    (b'E', 1),
    (b'E', 2),
    (b'G', 1),
    (b'G', 2),
    (b'H', 1),
    (b'H', 2),
    (b'X', 2),
];

// Symbols of a stream that no generator made.
const SYMBOLS: u64 = 200_000;

// Frames of a generator's stream.
const FRAMES: u64 = 300;

// The year in which a generator's stream begins, but for one case: it has day 366.
const LEAP_YEAR: u8 = 96;

const PRIME: u64 = 1_000_000_007;

// What a frame holds before it is written: no symbol, so that a frame that was not written is seen.
const LENT: u8 = 7;

fn folded(sum: u64, number: u64) -> u64 {
    (sum % PRIME * 31 + number % PRIME) % PRIME
}

// A report counts by where it came and by all that it says. Where no year is carried it is 0, and the sum that of the day.
fn with_report(sum: u64, elements: u64, time: Time, control: u64) -> u64 {
    let sum = folded(sum, elements);
    let sum = folded(sum, 1_000 * u64::from(time.year) + u64::from(time.day));
    let sum = folded(sum, u64::from(time.hundredths));
    folded(sum, control)
}

// Feeds one symbol in place, as the recorder has it: to a reader of its own, which is given on with the answer.
fn feed_one(reader: Reader, symbol: u8) -> Fed
    ensures { result ≡ feed_of reader symbol }
{
    let mut own = reader;
    let answer = feed_in_place(&mut own, symbol);
    Fed {
        reader: own,
        answer,
    }
}

// The reader, and what it has answered so far.
#[derive(Clone, Copy)]
struct Tally {
    reader: Reader,
    elements: u64,
    reports: u64,
    refused: u64,
    sum: u64,
}

impl Tally {
    fn of(reader: Reader) -> Tally {
        Tally {
            reader,
            elements: 0,
            reports: 0,
            refused: 0,
            sum: 0,
        }
    }

    // Where there is no fresh reader, the tally is of one that no call made.
    fn fresh(format: Format, setting: u8) -> Tally {
        let made = Reader::fresh(format, setting);
        match made {
            Ok(reader) => Tally::of(reader),
            Err(_) => Tally::of(reader_at(format, setting, 0)),
        }
    }

    fn receive(&mut self, symbol: u8) {
        let fed = feed_one(self.reader, symbol);
        self.reader = fed.reader;
        match fed.answer {
            Answer::Quiet => self.elements = self.elements.wrapping_add(1),
            Answer::Report { time, control } => {
                self.elements = self.elements.wrapping_add(1);
                self.reports = self.reports.wrapping_add(1);
                self.sum = with_report(self.sum, self.elements, time, control);
            }
            Answer::Refused(_) => self.refused = self.refused.wrapping_add(1),
        }
    }
}

// A reader that no call made: of any format and setting, at any place.
fn reader_at(format: Format, setting: u8, place: usize) -> Reader {
    Reader {
        format,
        setting,
        place,
        received: Register {
            count: 0,
            newest: 0,
            word0: 0,
            word1: 0,
            word2: 0,
            row: 0,
        },
        time: Time {
            year: 0,
            day: 0,
            hundredths: 0,
        },
        control: 0,
    }
}

fn is_x(format: Format) -> bool {
    format.letter == b'X'
}

// Marks, and in X missing pulses, where frames have them, and ones between.
fn shaped(format: Format, i: u64) -> u8 {
    let index = i % frame_size(format) as u64;
    if index == 0 {
        MARK
    } else if is_x(format) {
        if 20 < index { SPOILED } else { ONE }
    } else if index % 10 == 9 {
        MARK
    } else {
        ONE
    }
}

// The stream that has symbol_at(format, i) for symbol i.
fn receive_symbols<S: Fn(Format, u64) -> u8>(
    format: Format,
    setting: u8,
    count: u64,
    symbol_at: &S,
) -> Tally
    requires { S.IsAlwaysCallable symbol_at.now }
{
    let mut tally = Tally::fresh(format, setting);
    for i in 0..count {
        tally.receive(symbol_at(format, i));
    }
    tally
}

fn next_random(x: u64) -> u64 {
    (x % 2_147_483_648 * 1_103_515_245 + 12_345) % 2_147_483_648
}

// Two of six bytes are no symbols.
fn receive_random(format: Format, setting: u8) -> Tally {
    let mut tally = Tally::fresh(format, setting);
    let mut x = 1;
    for _ in 0..SYMBOLS {
        x = next_random(x);
        tally.receive((x / 65_536 % 6) as u8);
    }
    tally
}

// Every byte there is.
fn receive_bytes(mut tally: Tally) -> Tally {
    for byte in 0..=u8::MAX {
        tally.receive(byte);
    }
    tally
}

// A mark for a reader of every setting that a byte can be, with one count over all.
fn receive_settings(format: Format) -> Tally {
    let mut tally = Tally::fresh(format, 0);
    for setting in 0..=u8::MAX {
        tally.reader = reader_at(format, setting, 0);
        tally.receive(MARK);
    }
    tally
}

// Expressions 4 to 7 are 0 to 3 with the year.
fn carries_year(format: Format) -> bool {
    3 < format.expression
}

// Frame j's control word: as many bits as the format carries, of a number that grows with j.
fn control_of(format: Format, j: u64) -> u64 {
    let number = j % 65_536 * 12_345;
    if 1 < format.expression % 4 {
        return 0;
    }
    if carries_year(format) {
        return number % 262_144;
    }
    match format.letter {
        b'A' | b'B' => number % 134_217_728,
        b'D' | b'H' => number % 512,
        b'E' => number % 35_184_372_088_832,
        _ => number % 68_719_476_736,
    }
}

// Ten steps before the last time of day 365 of the year, where one is carried. In X every day is day 1.
fn first_time(format: Format, year: u8) -> Time {
    Time {
        year: if carries_year(format) { year } else { 0 },
        day: if is_x(format) { 1 } else { 365 },
        hundredths: Time::DAY_LENGTH - 11 * frame_interval(format),
    }
}

// A refused step leaves the time, and the next frame says it again.
fn time_after(format: Format, time: Time, length: u16) -> Time {
    let stepped = step(format, time, length, Time::USUAL_DAY);
    match stepped {
        Ok(next) => next,
        Err(_) => time,
    }
}

// A generator's stream that begins in that year: length_of(j) is the year's length of step j, and arrive gives the tally element k, as
// the case has it arrive.
fn receive_frames<L: Fn(u64) -> u16, A: Fn(&mut Tally, u64, u8)>(
    format: Format,
    setting: u8,
    year: u8,
    length_of: &L,
    arrive: &A,
) -> Tally
    requires length { L.IsAlwaysCallable length_of.now }
    requires arrival { A.IsAlwaysCallable arrive.now }
{
    let n = frame_size(format);
    let mut tally = Tally::fresh(format, setting);
    let mut time = first_time(format, year);
    let mut k: u64 = 0;
    for j in 0..FRAMES {
        let mut frame = [LENT; 100];
        let _ = write(format, time, control_of(format, j), &mut frame[..n]);
        for element in frame.iter().take(n) {
            arrive(&mut tally, k, *element);
            k = k.wrapping_add(1);
        }
        time = time_after(format, time, length_of(j));
    }
    tally
}

fn print_count(rt: &HostRuntime, name: &[u8], count: u64) {
    print(rt, name);
    print_number(rt, count);
}

// Setting 2, timeread's own, is not named.
fn print_line(rt: &HostRuntime, name: &[u8], format: Format, setting: u8, tally: Tally) {
    print(rt, name);
    print(rt, &[b' ', format.letter]);
    print_count(rt, b" ", u64::from(format.expression));
    if setting != 2 {
        print_count(rt, b" setting ", u64::from(setting));
    }
    print_count(rt, b" elements ", tally.elements);
    print_count(rt, b" reports ", tally.reports);
    print_count(rt, b" refused ", tally.refused);
    print_count(rt, b" sum ", tally.sum);
    print(rt, b"\n");
}

// A line for each format: received(format) is what its stream brings.
fn print_lines<R: Fn(Format) -> Tally>(rt: &HostRuntime, name: &[u8], setting: u8, received: R)
    requires { R.IsAlwaysCallable received }
{
    for (letter, expression) in FORMATS {
        let format = Format { letter, expression };
        print_line(rt, name, format, setting, received(format));
    }
}

fn print_symbols<S: Fn(Format, u64) -> u8>(rt: &HostRuntime, name: &[u8], setting: u8, symbol_at: S)
    requires { S.IsAlwaysCallable symbol_at }
{
    print_lines(rt, name, setting, |format| {
        receive_symbols(format, setting, SYMBOLS, &symbol_at)
    });
}

// A line for each format: of what receive_frames brings.
fn print_frames<L: Fn(u64) -> u16, A: Fn(&mut Tally, u64, u8)>(
    rt: &HostRuntime,
    name: &[u8],
    setting: u8,
    year: u8,
    length_of: &L,
    arrive: &A,
)
    requires length { L.IsAlwaysCallable length_of.now }
    requires arrival { A.IsAlwaysCallable arrive.now }
{
    for (letter, expression) in FORMATS {
        let format = Format { letter, expression };
        let tally = receive_frames(format, setting, year, length_of, arrive);
        print_line(rt, name, format, setting, tally);
    }
}

// Streams of which every year has day 366.
fn print_arrivals<A: Fn(&mut Tally, u64, u8)>(rt: &HostRuntime, name: &[u8], setting: u8, arrive: A)
    requires { A.IsAlwaysCallable arrive }
{
    print_frames(rt, name, setting, LEAP_YEAR, &|_| 366, &arrive);
}

// Streams that arrive as they were written.
fn print_steps<L: Fn(u64) -> u16>(
    rt: &HostRuntime,
    name: &[u8],
    setting: u8,
    year: u8,
    length_of: L,
)
    requires { L.IsAlwaysCallable length_of }
{
    print_frames(
        rt,
        name,
        setting,
        year,
        &length_of,
        &|tally: &mut Tally, _, element| tally.receive(element),
    );
}

fn print_more(rt: &HostRuntime) {
    let b0 = Format {
        letter: b'B',
        expression: 0,
    };
    let million = receive_symbols(b0, 2, 1_000_000, &|_, _| MARK);
    print_line(rt, b"million", b0, 2, million);
    let c0 = Format {
        letter: b'C',
        expression: 0,
    };
    print_line(rt, b"unknown", c0, 2, receive_bytes(Tally::fresh(c0, 2)));
}

// Pairs has marks where two frames of 60 have them at every third symbol, and fours where two of 60 or of 100 have them at every
// fourth: frames are looked into far more often than generators end them.
fn print_made_up(rt: &HostRuntime, setting: u8) {
    print_symbols(rt, b"marks", setting, |_, _| MARK);
    print_symbols(rt, b"spoiled", setting, |_, _| SPOILED);
    print_symbols(rt, b"alternating", setting, |_, i| {
        if i % 2 == 0 { MARK } else { ZERO }
    });
    print_symbols(rt, b"pairs", setting, |_, i| {
        if i % 3 == 2 { ZERO } else { MARK }
    });
    print_symbols(rt, b"fours", setting, |_, i| {
        if i % 4 < 2 { MARK } else { ZERO }
    });
    print_symbols(rt, b"refused", setting, |_, i| (4 + i % 252) as u8);
    print_symbols(rt, b"shaped", setting, shaped);
    print_random(rt, setting);
}

fn print_random(rt: &HostRuntime, setting: u8) {
    print_lines(rt, b"random", setting, |format| {
        receive_random(format, setting)
    });
}

// Day 365 ends with step 10, so leap and repeated go on to day 366 and common, which begins in the year before year 0, to day 1. On day
// 366 a year of 365 is refused: leap sends every second frame again, and repeated every fifth. Where the year is carried, its own length
// counts and none is refused.
fn print_generated(rt: &HostRuntime, setting: u8) {
    print_arrivals(rt, b"valid", setting, |tally: &mut Tally, _, element| {
        tally.receive(element)
    });
    print_arrivals(rt, b"damaged", setting, |tally: &mut Tally, k, element| {
        tally.receive(if k % 997 == 996 { SPOILED } else { element })
    });
    print_arrivals(rt, b"lost", setting, |tally: &mut Tally, k, element| {
        if k % 997 != 996 {
            tally.receive(element);
        }
    });
    print_arrivals(rt, b"added", setting, |tally: &mut Tally, k, element| {
        if k % 997 == 996 {
            tally.receive(ONE);
        }
        tally.receive(element);
    });
    print_arrivals(
        rt,
        b"interrupted",
        setting,
        |tally: &mut Tally, k, element| {
            if k % 50 == 49 {
                tally.receive(9);
            }
            tally.receive(element);
        },
    );
    print_steps(rt, b"leap", setting, LEAP_YEAR, |j| {
        if j % 2 == 0 { 366 } else { 365 }
    });
    print_steps(rt, b"common", setting, Time::LAST_YEAR, |j| {
        if j % 2 == 0 { 365 } else { 366 }
    });
}

// Another symbol than the element.
fn replaced(element: u8) -> u8 {
    (element % 4 + 1) % 4
}

fn print_rows(rt: &HostRuntime, setting: u8) {
    print_arrivals(rt, b"replaced", setting, |tally: &mut Tally, k, element| {
        tally.receive(if k % 331 == 330 {
            replaced(element)
        } else {
            element
        })
    });
    print_steps(rt, b"repeated", setting, LEAP_YEAR, |j| {
        if j % 5 == 4 { 365 } else { 366 }
    });
}

// With a setting above 2 the streams that no generator made bring no reports either: the random ones stand for them.
fn print_higher(rt: &HostRuntime, setting: u8) {
    print_random(rt, setting);
    print_generated(rt, setting);
    print_rows(rt, setting);
}

fn main(rt: HostRuntime) {
    print_made_up(&rt, 2);
    print_generated(&rt, 2);
    print_lines(&rt, b"place", 2, |format| {
        receive_bytes(Tally::of(reader_at(format, 2, frame_size(format))))
    });
    print_more(&rt);
    print_rows(&rt, 2);
    print_higher(&rt, 3);
    print_higher(&rt, 4);
    print_higher(&rt, 5);
    print_lines(&rt, b"settings", 2, receive_settings);
}
