// Digits at their runs as the elements of a frame, and back: the layout's own writing and reading, without a time.
// The calls here are the frame's own; they are lent a row's places and marks and ask for frames of 60 or 100.
#![tactic(auto)]

ghost use Rattle.std.specs.Prelude.{◌≡◌, ℕ, ◌+◌, ◌*◌, ◌-◌, ◌/◌, ◌%◌, ◌^◌, ◌≤◌, ◌<◌, get_or, length};
ghost use Rattle.timecode.specs.Layout.{value};
ghost use Rattle.layout.specs.Tables.{run_starts, full_widths, run_widths, mark_places};
ghost use Rattle.elements.specs.RunBits.{packed, packed_runs, packed_year};
ghost use Rattle.elements.specs.RunLoops.{RunsInside, run_digit, digits_at};
ghost use Rattle.elements.specs.Tens.{four_elements, ten, tens};

use layout::{
    CONTROL_1, CONTROL_2, RUNS, SECOND, STRAIGHT_LOW, YEAR_TENS, YEAR_UNITS, full_widths,
    is_carried,
};
use timecode::MARK;

// The four elements of each number below 16, a byte each, lowest weight first.
const FOURS: [u32; 16] = [
    0x0000_0000,
    0x0000_0001,
    0x0000_0100,
    0x0000_0101,
    0x0001_0000,
    0x0001_0001,
    0x0001_0100,
    0x0001_0101,
    0x0100_0000,
    0x0100_0001,
    0x0100_0100,
    0x0100_0101,
    0x0101_0000,
    0x0101_0001,
    0x0101_0100,
    0x0101_0101,
];

// A digit's low nine bits where its run starts, counted from an index; below 2^59, since no run of nine starts late.
fn placed(start: u8, digit: u64, from: u8) -> u64
    requires { (from ≤ start) × (start ≤ from + 50) }
    ensures { (result ≡ digit % 512 * 2 ^ (start - from)) × (result < 576460752303423488) }
{
    (digit % 512) << (start - from)
}

// The bits of the digits from one run on and before the other.
fn bits_from(places: &[u8], digits: &[u64], first: usize, last: usize, from: u8) -> u64
    requires { (places.now ≡ run_starts) × (length digits.now ≡ 20) × (first ≤ last) × (last ≤ 18) × ((j : ℕ) → first ≤ j → j < last → (from ≤ get_or run_starts j 0) × (get_or run_starts j 0 ≤ from + 50)) }
    ensures { (result ≡ packed_runs from digits.now first (last - first)) × (result ≤ (last - first) * 576460752303423488) }
{
    let mut bits = 0;
    for j in (first..last).rev() {
        bits += placed(places[j], digits[j], from);
    }
    bits
}

// The bits of the year's two digits. The tens begin at 55, where nine bits would pass the end of a word: they have four.
fn year_bits(places: &[u8], digits: &[u64]) -> u64
    requires { (places.now ≡ run_starts) × (length digits.now ≡ 20) }
    ensures { (result ≡ packed_year digits.now) × (result ≤ 2 * 576460752303423488) }
{
    let units = placed(places[YEAR_UNITS], digits[YEAR_UNITS], 0);
    let tens = (digits[YEAR_TENS] % 16) << places[YEAR_TENS];
    units + tens
}

// Bit k of x, from the four elements that it stands among: the compiler stores those four at once.
fn element(fours: &[u32], x: u64, k: usize) -> u8
    requires { (fours.now ≡ four_elements) × (k < 8) }
    ensures { result ≡ x / 2 ^ k % 2 }
{
    let index = (x >> (k / 4 * 4)) % 16;
    let four = fours[index as usize];
    ((four >> (k % 4 * 8)) % 256) as u8
}

// Ten elements of a frame: nine bits and the mark behind them, and in the first ten the mark before them.
fn put_ten(fours: &[u32], marks: &[u8], frame: &mut [u8], k: usize, x: u64)
    requires { (fours.now ≡ four_elements) × (marks.now ≡ mark_places) × (10 * k + 10 ≤ length frame.old) × (length frame.old ≤ 100) }
    ensures { frame.new ≡ ten frame.old k x }
{
    let at = 10 * k;
    for j in 0..8 {
        frame[at + j] = element(fours, x, j);
    }
    frame[at + 8] = (x / 256 % 2) as u8;
    frame[usize::from(marks[k + 1])] = MARK;
    if k == 0 {
        frame[usize::from(marks[k])] = MARK;
    }
}

// The tens of a frame from one on and before the other, from their elements as the bits of a number.
// Each call is compiled into its caller, where the row's marks are known.
pub fn put_tens(marks: &[u8], frame: &mut [u8], from: usize, to: usize, bits: u64)
    requires { (marks.now ≡ mark_places) × (10 * to ≤ length frame.old) × (length frame.old ≤ 100) × (from ≤ to) × (to ≤ from + 6) }
    ensures { frame.new ≡ tens frame.old from to bits }
{
    let fours = FOURS;
    for k in from..to {
        put_ten(&fours, marks, frame, k, bits >> (10 * (k - from)));
    }
}

// The bits of the time's digits, which stand below 60. This and the next two are apart, so that each is compiled into its callers; a frame of 60 leaves the last one's out.
pub fn time_bits(places: &[u8], digits: &[u64]) -> u64
    requires { (places.now ≡ run_starts) × (length digits.now ≡ 20) }
    ensures { (result ≡ packed_runs 0 digits.now 0 11) × (result ≤ 11 * 576460752303423488) }
{
    bits_from(places, digits, SECOND, STRAIGHT_LOW, 0)
}

// The bits of the first control range and of the year, which stand below 60 too.
pub fn middle_bits(places: &[u8], digits: &[u64]) -> u64
    requires { (places.now ≡ run_starts) × (length digits.now ≡ 20) }
    ensures { (result ≡ packed_runs 0 digits.now 13 1 + packed_year digits.now) × (result ≤ 3 * 576460752303423488) }
{
    bits_from(places, digits, CONTROL_1, CONTROL_2, 0) + year_bits(places, digits)
}

// The bits of straight binary seconds and the other control ranges, which stand from 60 on in a frame of 100 elements.
pub fn tail_bits(places: &[u8], digits: &[u64], elements: usize) -> u64
    requires { (places.now ≡ run_starts) × (length digits.now ≡ 20) }
    ensures { elements ≡ 100 → result ≡ packed 60 100 run_starts digits.now }
{
    if elements == 100 {
        bits_from(places, digits, STRAIGHT_LOW, CONTROL_1, 60)
            + bits_from(places, digits, CONTROL_2, YEAR_UNITS, 60)
    } else {
        0
    }
}

// The digit that stands at a run.
fn digit_at(frame: &[u8], start: usize, width: usize) -> u64
    requires { (width ≤ 9) × ((k : ℕ) → k < width → start + k < length frame.now) }
    ensures { result ≡ value width (λ b. get_or frame.now (start + b) 0) }
{
    let mut digit: u64 = 0;
    for k in (0..width).rev() {
        digit = digit * 2 + u64::from(frame[start + k]);
    }
    digit
}

// The digit that stands at a run, 0 where it is not carried.
fn run_digit(places: &[u8], runs: u32, frame: &[u8], run: usize) -> u64
    requires { (places.now ≡ run_starts) × RunsInside (run_widths runs) (length frame.now) × (run < 20) }
    ensures { result ≡ run_digit (run_widths runs) frame.now run }
{
    if !is_carried(runs, run) {
        return 0;
    }
    let widths = full_widths();
    digit_at(frame, usize::from(places[run]), usize::from(widths[run]))
}

// The digits that stand at a row's runs. One after the other, not in a loop, so that each is compiled for its own place and width.
pub fn digits_in(places: &[u8], runs: u32, frame: &[u8]) -> [u64; 20]
    requires { (places.now ≡ run_starts) × RunsInside (run_widths runs) (length frame.now) }
    ensures { result ≡ digits_at (run_widths runs) frame.now }
{
    [
        run_digit(places, runs, frame, 0),
        run_digit(places, runs, frame, 1),
        run_digit(places, runs, frame, 2),
        run_digit(places, runs, frame, 3),
        run_digit(places, runs, frame, 4),
        run_digit(places, runs, frame, 5),
        run_digit(places, runs, frame, 6),
        run_digit(places, runs, frame, 7),
        run_digit(places, runs, frame, 8),
        run_digit(places, runs, frame, 9),
        run_digit(places, runs, frame, 10),
        run_digit(places, runs, frame, 11),
        run_digit(places, runs, frame, 12),
        run_digit(places, runs, frame, 13),
        run_digit(places, runs, frame, 14),
        run_digit(places, runs, frame, 15),
        run_digit(places, runs, frame, 16),
        run_digit(places, runs, frame, 17),
        run_digit(places, runs, frame, 18),
        run_digit(places, runs, frame, 19),
    ]
}
