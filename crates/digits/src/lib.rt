// A time and a control word as the digits at a format's runs, and what digits mean: numbers 7 and 8, the time and the control word.
// Letter X is left out. Written digits are those of a time and a control word that Write takes; read ones come from a frame in which nothing offends.
#![tactic(auto)]

ghost use Rattle.std.specs.Prelude.{◌≡◌, true, false, cond, ◌+◌, ◌*◌, ◌^◌, ◌≤◌, ◌<◌, eqb, get_or, length};
ghost use Rattle.timecode.specs.Formats.{is_x};
ghost use Rattle.timecode.specs.Frames.{control_fits, Valid};
ghost use Rattle.timecode.specs.Layout.{numbers, all_digits};
ghost use Rattle.timecode.specs.declared.Format.{Format};
ghost use Rattle.layout.specs.Tables.{widths_of};
ghost use Rattle.layout.specs.Runs.{code_fields};
ghost use Rattle.digits.specs.Meaning.{pair_at, day_from, digits_from, last_second_of, is_time_of, time_from, agree_of, control_from, meaning_of, Bounds};
ghost use Rattle.digits.specs.Splitting.{Widths, Digits};

use dates::last_day_in;
use layout::{
    CONTROL_1, CONTROL_2, CONTROL_3, CONTROL_4, CONTROL_5, DAY_HUNDREDS, DAY_TENS, DAY_UNITS,
    DECIMAL_RUNS, HOUR, HUNDREDTH, MINUTE, SECOND, STRAIGHT_HIGH, STRAIGHT_LOW, TENTH, YEAR_TENS,
    YEAR_UNITS,
};
use timecode::{Reading, Refusal, Time};

// The width of run j.
fn width(widths: &[u8], j: usize) -> usize
    requires { Widths widths.now × (j < 20) }
    ensures { (result ≡ get_or widths.now j 0) × (result ≤ 9) }
{
    usize::from(widths[j])
}

// The control word needs no more bits than are carried.
pub fn control_fits(widths: &[u8], control: u64) -> bool
    requires { Widths widths.now }
    ensures { (f : Format) → widths.now ≡ widths_of f → result ≡ control_fits f control }
{
    let bits = width(widths, CONTROL_1)
        + width(widths, CONTROL_2)
        + width(widths, CONTROL_3)
        + width(widths, CONTROL_4)
        + width(widths, CONTROL_5);
    control >> bits == 0
}

// The number where run j is carried, else 0.
fn carried(widths: &[u8], j: usize, x: u64) -> u64
    requires { Widths widths.now × (j < 20) }
    ensures { result ≡ cond (eqb (get_or widths.now j 0) 0) 0 x }
{
    if width(widths, j) == 0 { 0 } else { x }
}

// The digits of a time and a control word. The added second is one more than the second before it: 23:59:60.
// Where the first of its ranges is not carried, the control word is moved up to the second; a word that fits has no bits for
// ranges behind the last that is carried.
pub fn digits_of(widths: &[u8], time: Time, control: u64) -> [u64; 20]
    requires { Widths widths.now }
    ensures { (f : Format) → is_x f ≡ false → widths.now ≡ widths_of f → Valid f time control → result ≡ all_digits (code_fields f) (numbers f time control) }
{
    let year = u64::from(time.year);
    let day = u64::from(time.day);
    let c = u64::from(time.hundredths);
    let seconds = c / 100;
    let added = u64::from(time.hundredths / Time::DAY_LENGTH);
    let usual = seconds - added;
    let second = usual % 60 + added;
    let minute = usual / 60 % 60;
    let hour = usual / 60 / 60;
    let straight = carried(widths, STRAIGHT_LOW, seconds);
    let word = control << (9 - width(widths, CONTROL_1));
    [
        second % 10,
        second / 10,
        minute % 10,
        minute / 10,
        hour % 10,
        hour / 10,
        day % 10,
        day / 10 % 10,
        day / 10 / 10,
        c / 10 % 10,
        c % 10,
        straight % 512,
        straight / 512,
        word % 512,
        word / 512 % 512,
        word / 512 / 512 % 512,
        word / 512 / 512 / 512 % 512,
        word / 512 / 512 / 512 / 512 % 512,
        year % 10,
        year / 10,
    ]
}

// The number of two decimal digits.
fn pair(digits: &[u64], at: usize) -> u64
    requires { Digits digits.now × (at < 19) }
    ensures { (result ≡ pair_at digits.now at) × (result < 6000) }
{
    digits[at] + 10 * digits[at + 1]
}

fn day_in(digits: &[u64]) -> u64
    requires { Digits digits.now }
    ensures { result ≡ day_from digits.now }
{
    digits[DAY_UNITS] + 10 * (digits[DAY_TENS] + 10 * digits[DAY_HUNDREDS])
}

// No digit of the time is over 9.
fn are_digits(digits: &[u64]) -> bool
    requires { length digits.now ≡ 20 }
    ensures { result ≡ digits_from 11 0 digits.now }
{
    for digit in &digits[..DECIMAL_RUNS] {
        if 9 < *digit {
            return false;
        }
    }
    true
}

// No digit of the year is over 9; they are 0 where it is not carried.
#[tactic(auto, unfolding(crate::specs::Meaning::digits_from), using(std::proofs::lemmas::Bool::Decides::nat_tests))]
fn are_year_digits(digits: &[u64]) -> bool
    requires { length digits.now ≡ 20 }
    ensures { result ≡ digits_from 2 18 digits.now }
{
    digits[YEAR_UNITS] <= 9 && digits[YEAR_TENS] <= 9
}

fn year_in(digits: &[u64]) -> u8
    requires { Digits digits.now × (digits_from 2 18 digits.now ≡ true) }
    ensures { result ≡ pair_at digits.now 18 }
{
    pair(digits, YEAR_UNITS) as u8
}

// The last second of a minute: the 61st at 23:59 only, where the leap second is carried.
#[tactic(auto, unfolding(crate::specs::Meaning::last_second_of), using(std::proofs::lemmas::Bool::Decides::nat_tests))]
fn last_second(leap: bool, hour: u64, minute: u64) -> u64
    ensures { result ≡ last_second_of leap hour minute }
{
    if leap && hour == 23 && minute == 59 {
        60
    } else {
        59
    }
}

// Number 7: no digit over 9, hours over 23, minutes over 59, seconds over the minute's last, day 0 or over the year's last.
#[tactic(auto, unfolding(crate::specs::Meaning::is_time_of), using(std::proofs::lemmas::Bool::Decides::nat_tests))]
fn is_time(leap: bool, year: bool, digits: &[u64]) -> bool
    requires { Digits digits.now }
    ensures { result ≡ is_time_of leap year digits.now }
{
    let hour = pair(digits, HOUR);
    let minute = pair(digits, MINUTE);
    let day = day_in(digits);
    are_digits(digits)
        && are_year_digits(digits)
        && hour <= 23
        && minute <= 59
        && pair(digits, SECOND) <= last_second(leap, hour, minute)
        && u64::from(Time::FIRST_DAY) <= day
        && day <= u64::from(last_day_in(year, year_in(digits)))
}

#[tactic(auto, unfolding(crate::specs::Meaning::time_from))]
fn time_in(digits: &[u64]) -> Time
    requires { Digits digits.now × Bounds digits.now }
    ensures { result ≡ time_from digits.now }
{
    let hundredths = ((pair(digits, HOUR) * 60 + pair(digits, MINUTE)) * 60 + pair(digits, SECOND))
        * 100
        + digits[TENTH] * 10
        + digits[HUNDREDTH];
    Time {
        year: year_in(digits),
        day: day_in(digits) as u16,
        hundredths: hundredths as u32,
    }
}

// Number 8: where straight binary seconds are carried, they are the seconds that the digits say.
#[tactic(auto, unfolding(crate::specs::Meaning::agree_of), using(std::proofs::lemmas::Bool::Decides::nat_tests))]
fn seconds_agree(widths: &[u8], digits: &[u64], time: Time) -> bool
    requires { Widths widths.now × Digits digits.now × (time ≡ time_from digits.now) }
    ensures { result ≡ agree_of widths.now digits.now }
{
    width(widths, STRAIGHT_LOW) == 0
        || digits[STRAIGHT_LOW] + 512 * digits[STRAIGHT_HIGH] == u64::from(time.hundredths / 100)
}

// A number's low bits and those above them.
fn join(low: u64, width: usize, high: u64) -> u64
    requires { (low < 512) × (width ≤ 9) × (high < 1000000000000) }
    ensures { (result ≡ low + 2 ^ width * high) × (result < 512 * (high + 1)) }
{
    low + (high << width)
}

// The control word.
fn control_in(widths: &[u8], digits: &[u64]) -> u64
    requires { Widths widths.now × Digits digits.now }
    ensures { result ≡ control_from widths.now digits.now }
{
    let word4 = join(
        digits[CONTROL_4],
        width(widths, CONTROL_4),
        digits[CONTROL_5],
    );
    let word3 = join(digits[CONTROL_3], width(widths, CONTROL_3), word4);
    let word2 = join(digits[CONTROL_2], width(widths, CONTROL_2), word3);
    join(digits[CONTROL_1], width(widths, CONTROL_1), word2)
}

// What digits say that come from a frame in which nothing offends.
#[tactic(auto, unfolding(crate::specs::Meaning::meaning_of))]
pub fn meaning(leap: bool, year: bool, widths: &[u8], digits: &[u64]) -> Result<Reading, Refusal>
    requires { Widths widths.now × Digits digits.now }
    ensures { result ≡ meaning_of leap year widths.now digits.now }
{
    if !is_time(leap, year, digits) {
        return Err(Refusal::InvalidDigit);
    }
    let time = time_in(digits);
    if !seconds_agree(widths, digits, time) {
        return Err(Refusal::SecondsDiffer);
    }
    Ok(Reading {
        time,
        control: control_in(widths, digits),
    })
}
