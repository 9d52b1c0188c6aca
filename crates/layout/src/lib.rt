// The layout as constant rows, one for each of the letters A, B, D, E, G, H and X and one more for A and B with the year, lent to writer and reader alike.
// Each function gives what document 01's table and document 02's year and XR3 give, for every format; a letter that is none of the seven has a row of its own.
#![tactic(auto)]

ghost use Rattle.std.specs.Prelude.{◌≡◌, false, cond, ◌&&◌, ℕ, ◌≤◌, ◌<◌, leb};
ghost use Rattle.timecode.specs.Formats.{known, size, interval, carries_leap, carries_year};
ghost use Rattle.layout.specs.Tables.{RowFor, RowOf, IsRow, run_starts, full_widths, is_carried, run_widths, runs_in, has_year, takes_year, without_year, with_letter};

use timecode::Format;

// A row: n, S, its expressions (first to last), whether it carries the leap second and the year, and which runs of elements it
// carries, a bit for each by its number, the first the lowest; then where its runs start, carried or not, by their numbers, and its marks.
#[derive(Clone, Copy)]
pub struct Row {
    pub elements: usize,
    pub interval: u32,
    pub first: u8,
    pub last: u8,
    pub leap: bool,
    pub year: bool,
    pub runs: u32,
    // decimal digits of the time, and straight binary seconds
    pub digits: [u8; 13],
    // ranges of control bits
    pub controls: [u8; 5],
    // digits of the year
    pub years: [u8; 2],
    // in a frame of 100 all, in one of 60 the first seven
    pub marks: [u8; 11],
}

// The runs by their numbers: units and tens of seconds, of minutes and of hours (the number is that of the units);
// units, tens and hundreds of days; tenths; hundredths. These are the runs of a decimal digit each.
pub const SECOND: usize = 0;

pub const MINUTE: usize = 2;

pub const HOUR: usize = 4;

pub const DAY_UNITS: usize = 6;

pub const DAY_TENS: usize = 7;

pub const DAY_HUNDREDS: usize = 8;

pub const TENTH: usize = 9;

pub const HUNDREDTH: usize = 10;

pub const DECIMAL_RUNS: usize = 11;

// Two runs of straight binary seconds.
pub const STRAIGHT_LOW: usize = 11;

pub const STRAIGHT_HIGH: usize = 12;

// Five ranges of control bits.
pub const CONTROL_1: usize = 13;

pub const CONTROL_2: usize = 14;

pub const CONTROL_3: usize = 15;

pub const CONTROL_4: usize = 16;

pub const CONTROL_5: usize = 17;

// Units and tens of the year, behind all others.
pub const YEAR_UNITS: usize = 18;

pub const YEAR_TENS: usize = 19;

pub const RUNS: usize = 20;

// How many elements each run has.
const WIDTHS: [u8; 20] = [4, 3, 4, 3, 4, 2, 4, 4, 2, 4, 4, 9, 8, 9, 9, 9, 9, 9, 4, 4];

const A: Row = Row {
    elements: 100,
    interval: 10,
    first: 0,
    last: 3,
    leap: true,
    year: false,
    runs: 0b00_00111_11_01_111_11_11_11,
    digits: [1, 6, 10, 15, 20, 25, 30, 35, 40, 45, 50, 80, 90],
    controls: [50, 60, 70, 80, 90],
    years: [50, 55],
    marks: [0, 9, 19, 29, 39, 49, 59, 69, 79, 89, 99],
};

const B: Row = Row {
    elements: 100,
    interval: 100,
    first: 0,
    last: 3,
    leap: true,
    year: false,
    runs: 0b00_00111_11_00_111_11_11_11,
    digits: [1, 6, 10, 15, 20, 25, 30, 35, 40, 45, 50, 80, 90],
    controls: [50, 60, 70, 80, 90],
    years: [50, 55],
    marks: [0, 9, 19, 29, 39, 49, 59, 69, 79, 89, 99],
};

// With the year, which stands in the places of control bits 1 to 9.
const A_YEAR: Row = Row {
    elements: 100,
    interval: 10,
    first: 4,
    last: 7,
    leap: true,
    year: true,
    runs: 0b11_00110_11_01_111_11_11_11,
    digits: [1, 6, 10, 15, 20, 25, 30, 35, 40, 45, 50, 80, 90],
    controls: [50, 60, 70, 80, 90],
    years: [50, 55],
    marks: [0, 9, 19, 29, 39, 49, 59, 69, 79, 89, 99],
};

const B_YEAR: Row = Row {
    elements: 100,
    interval: 100,
    first: 4,
    last: 7,
    leap: true,
    year: true,
    runs: 0b11_00110_11_00_111_11_11_11,
    digits: [1, 6, 10, 15, 20, 25, 30, 35, 40, 45, 50, 80, 90],
    controls: [50, 60, 70, 80, 90],
    years: [50, 55],
    marks: [0, 9, 19, 29, 39, 49, 59, 69, 79, 89, 99],
};

const D: Row = Row {
    elements: 60,
    interval: 360_000,
    first: 1,
    last: 2,
    leap: false,
    year: false,
    runs: 0b00_00001_00_00_111_11_00_00,
    digits: [1, 6, 10, 15, 20, 25, 30, 35, 40, 45, 50, 80, 90],
    controls: [50, 60, 70, 80, 90],
    years: [50, 55],
    marks: [0, 9, 19, 29, 39, 49, 59, 69, 79, 89, 99],
};

const E: Row = Row {
    elements: 100,
    interval: 1_000,
    first: 1,
    last: 2,
    leap: false,
    year: false,
    runs: 0b00_11111_00_00_111_11_11_10,
    digits: [1, 6, 10, 15, 20, 25, 30, 35, 40, 45, 50, 80, 90],
    controls: [50, 60, 70, 80, 90],
    years: [50, 55],
    marks: [0, 9, 19, 29, 39, 49, 59, 69, 79, 89, 99],
};

const G: Row = Row {
    elements: 100,
    interval: 1,
    first: 1,
    last: 2,
    leap: true,
    year: false,
    runs: 0b00_11110_00_11_111_11_11_11,
    digits: [1, 6, 10, 15, 20, 25, 30, 35, 40, 45, 50, 80, 90],
    controls: [50, 60, 70, 80, 90],
    years: [50, 55],
    marks: [0, 9, 19, 29, 39, 49, 59, 69, 79, 89, 99],
};

const H: Row = Row {
    elements: 60,
    interval: 6_000,
    first: 1,
    last: 2,
    leap: false,
    year: false,
    runs: 0b00_00001_00_00_111_11_11_00,
    digits: [1, 6, 10, 15, 20, 25, 30, 35, 40, 45, 50, 80, 90],
    controls: [50, 60, 70, 80, 90],
    years: [50, 55],
    marks: [0, 9, 19, 29, 39, 49, 59, 69, 79, 89, 99],
};

// Its runs have other places, those of `tape`, and their highest weights first; the widths are these. Nothing reads the places here.
const X: Row = Row {
    elements: 25,
    interval: 100,
    first: 2,
    last: 2,
    leap: false,
    year: false,
    runs: 0b00_00000_00_00_000_11_11_11,
    digits: [1, 6, 10, 15, 20, 25, 30, 35, 40, 45, 50, 80, 90],
    controls: [50, 60, 70, 80, 90],
    years: [50, 55],
    marks: [0, 9, 19, 29, 39, 49, 59, 69, 79, 89, 99],
};

// Any other letter: its last expression is below its first, so it takes none, and nothing reads its places.
const OTHER: Row = Row {
    elements: 100,
    interval: 1,
    first: 1,
    last: 0,
    leap: false,
    year: false,
    runs: 0b00_00000_00_00_111_11_00_00,
    digits: [1, 6, 10, 15, 20, 25, 30, 35, 40, 45, 50, 80, 90],
    controls: [50, 60, 70, 80, 90],
    years: [50, 55],
    marks: [0, 9, 19, 29, 39, 49, 59, 69, 79, 89, 99],
};

// The row of a letter in one of its editions, without the year or with it, in expression 0 or 4, which carries everything.
// One match on the letter, so that it is compiled into its callers, which then know what all rows have in common.
fn row_in(letter: u8, year: bool) -> Row
    ensures { (e : ℕ) → carries_year (with_letter letter e) ≡ (year && takes_year letter) → RowFor (with_letter letter e) result }
{
    match letter {
        b'A' if year => A_YEAR,
        b'A' => A,
        b'B' if year => B_YEAR,
        b'B' => B,
        b'D' => D,
        b'E' => E,
        b'G' => G,
        b'H' => H,
        b'X' => X,
        _ => OTHER,
    }
}

// Expressions 4 to 7 are those with the year.
#[tactic(auto, unfolding(crate::specs::Tables::has_year), using(std::proofs::lemmas::Bool::Decides::nat_tests))]
fn has_year(expression: u8) -> bool
    ensures { result ≡ has_year expression }
{
    matches!(expression, 4..=7)
}

// The expression is one of the row's.
pub fn takes(row: Row, expression: u8) -> bool
    ensures { result ≡ (leb row.first expression && leb expression row.last) }
{
    row.first <= expression && expression <= row.last
}

// A and B in the expressions with the year.
#[tactic(auto, unfolding(timecode::specs::Formats::carries_year, crate::specs::Tables::has_year), using(std::proofs::lemmas::Bool::Decides::nat_tests))]
pub fn carries_year(format: Format) -> bool
    ensures { result ≡ carries_year format }
{
    has_year(format.expression) && matches!(format.letter, b'A' | b'B')
}

pub fn is_known(format: Format) -> bool
    ensures { result ≡ known format }
{
    carries_year(format) || takes(row_in(format.letter, false), format.expression)
}

pub fn frame_size(format: Format) -> usize
    ensures { (result ≡ size format) × (25 ≤ result) × (result ≤ 100) }
{
    row_in(format.letter, false).elements
}

pub fn frame_interval(format: Format) -> u32
    ensures { (result ≡ interval format) × (1 ≤ result) × (result ≤ 360000) }
{
    row_in(format.letter, false).interval
}

pub fn carries_leap(format: Format) -> bool
    ensures { result ≡ carries_leap format }
{
    row_in(format.letter, false).leap
}

pub fn full_widths() -> [u8; 20]
    ensures { result ≡ full_widths }
{
    WIDTHS
}

// The run with this number is one of those that are carried.
#[tactic(auto, unfolding(crate::specs::Tables::is_carried))]
pub fn is_carried(runs: u32, run: usize) -> bool
    requires { run < 20 }
    ensures { result ≡ is_carried runs run }
{
    (runs >> run) % 2 == 1
}

fn width_in(runs: u32, run: usize, full: u8) -> u8
    requires { run < 20 }
    ensures { result ≡ cond (is_carried runs run) full 0 }
{
    if is_carried(runs, run) { full } else { 0 }
}

// How many elements each run has, 0 where it is not carried.
pub fn widths_of(runs: u32) -> [u8; 20]
    ensures { result ≡ run_widths runs }
{
    let full = WIDTHS;
    let mut widths = [0u8; RUNS];
    for run in 0..RUNS {
        widths[run] = width_in(runs, run, full[run]);
    }
    widths
}

// 4 to 7 are 0 to 3 with the year.
fn without_year(expression: u8) -> u8
    ensures { result ≡ without_year expression }
{
    if has_year(expression) {
        expression - 4
    } else {
        expression
    }
}

// The runs that an expression may carry, counted from its edition's first. 0 = BCD, CF, SBS; 1 = BCD, CF; 2 = BCD; 3 = BCD, SBS.
#[tactic(auto, unfolding(crate::specs::Tables::runs_in), using(std::proofs::lemmas::Bool::Decides::nat_tests))]
fn runs_in(expression: u8) -> u32
    ensures { result ≡ runs_in expression }
{
    match expression {
        0 => 0b11_11111_11_11_111_11_11_11,
        1 => 0b11_11111_00_11_111_11_11_11,
        3 => 0b11_00000_11_11_111_11_11_11,
        _ => 0b11_00000_00_11_111_11_11_11,
    }
}

// The row of a format: its edition's, with what its expression carries.
pub fn row_of(format: Format) -> Row
    ensures { RowOf format result }
{
    let mut row = row_in(format.letter, has_year(format.expression));
    row.runs &= runs_in(without_year(format.expression));
    row
}

// Where the runs start, by their numbers.
pub fn places_of(row: Row) -> [u8; 20]
    requires { IsRow row }
    ensures { result ≡ run_starts }
{
    let digits = row.digits;
    let controls = row.controls;
    let years = row.years;
    [
        digits[0],
        digits[1],
        digits[2],
        digits[3],
        digits[4],
        digits[5],
        digits[6],
        digits[7],
        digits[8],
        digits[9],
        digits[10],
        digits[11],
        digits[12],
        controls[0],
        controls[1],
        controls[2],
        controls[3],
        controls[4],
        years[0],
        years[1],
    ]
}
