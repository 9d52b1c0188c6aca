// Frames of A and B converted between the edition without the year and the one with it: Read, the converter's own checks, Write.
// Each call equals its definition for every input.
#![tactic(auto)]

ghost use Rattle.std.specs.Prelude.{◌≡◌, true, Ok, ◌&&◌, ◌*◌, ◌/◌, ◌≤◌, eqb, length};
ghost use Rattle.timecode.specs.Editions.{with_year, without_year, time_in_year, nine_bits, is_earlier, check_forward, forwarded, forward_of, forward_leaves, backwarded, backward_of, backward_leaves};
ghost use Rattle.timecode.specs.Formats.{size, carries_year};
ghost use Rattle.timecode.specs.Frames.{Valid, written, left};
ghost use Rattle.timecode.specs.Answers.{done};

use dates::last_day_in;
use frame::{read, write};
use layout::{carries_year, frame_size};
use timecode::{Format, Reading, Refusal, Time};

// Control bits 1 to 9 stand where the year does: the later ones are above them in the word of the edition without it.
const NINE_BITS: u64 = 512;

// A and B without the year.
#[tactic(auto, unfolding(timecode::specs::Editions::is_earlier), using(std::proofs::lemmas::Bool::Decides::nat_tests))]
fn is_earlier(format: Format) -> bool
    ensures { result ≡ is_earlier format }
{
    format.expression <= 3 && matches!(format.letter, b'A' | b'B')
}

fn with_year(format: Format) -> Format
    requires { format.expression ≤ 3 }
    ensures { result ≡ with_year format }
{
    Format {
        expression: format.expression + 4,
        ..format
    }
}

fn without_year(format: Format) -> Format
    requires { 4 ≤ format.expression }
    ensures { result ≡ without_year format }
{
    Format {
        expression: format.expression - 4,
        ..format
    }
}

fn time_in_year(time: Time, year: u8) -> Time
    ensures { result ≡ time_in_year time year }
{
    Time { year, ..time }
}

// Both frames are as long as the format's.
fn both_fit(format: Format, first: usize, second: usize) -> bool
    ensures { result ≡ (eqb first (size format) && eqb second (size format)) }
{
    let n = frame_size(format);
    first == n && second == n
}

// The forward converter's own checks.
#[tactic(auto, unfolding(timecode::specs::Editions::check_forward), using(std::proofs::lemmas::Bool::Decides::nat_tests))]
fn check_forward(year: u8, reading: Reading) -> Result<(), Refusal>
    ensures { result ≡ check_forward year (Ok reading) }
{
    if Time::LAST_YEAR < year {
        return Err(Refusal::InvalidYear);
    }
    if last_day_in(true, year) < reading.time.day {
        return Err(Refusal::InvalidTime);
    }
    if reading.control % NINE_BITS != 0 {
        return Err(Refusal::YearPlaceTaken);
    }
    Ok(())
}

// Writes what was read with the year, where its checks let it.
fn put_forward(format: Format, reading: Reading, year: u8, lent: &mut [u8]) -> Result<(), Refusal>
    requires { (is_earlier format ≡ true) × Valid format reading.time reading.control × (length lent.old ≡ size format) }
    ensures { (result ≡ check_forward year (Ok reading)) × (lent.new ≡ left (check_forward year (Ok reading)) (forwarded format year (Ok reading) lent.old) lent.old) }
{
    check_forward(year, reading)?;
    write(
        with_year(format),
        time_in_year(reading.time, year),
        reading.control / NINE_BITS,
        lent,
    )
}

// A frame without the year as one with it; the later control bits stay in place, and where it refuses, the lent frame stays.
pub fn forward(format: Format, frame: &[u8], year: u8, lent: &mut [u8]) -> Result<(), Refusal>
    ensures { (result ≡ forward_of format frame.now year lent.old) × (lent.new ≡ forward_leaves format frame.now year lent.old) }
{
    if !is_earlier(format) {
        return Err(Refusal::UnknownFormat);
    }
    if !both_fit(format, frame.len(), lent.len()) {
        return Err(Refusal::WrongLength);
    }
    let reading = read(format, frame)?;
    put_forward(format, reading, year, lent)
}

// Writes what was read without the year.
fn put_backward(format: Format, reading: Reading, lent: &mut [u8]) -> Result<(), Refusal>
    requires { (carries_year format ≡ true) × Valid format reading.time reading.control × (length lent.old ≡ size format) }
    ensures { (result ≡ done) × (lent.new ≡ backwarded format (Ok reading) lent.old) }
{
    write(
        without_year(format),
        time_in_year(reading.time, 0),
        reading.control * NINE_BITS,
        lent,
    )
}

// A frame with the year as one without it, 50 to 58 zero; where it refuses, the lent frame stays.
pub fn backward(format: Format, frame: &[u8], lent: &mut [u8]) -> Result<(), Refusal>
    ensures { (result ≡ backward_of format frame.now lent.old) × (lent.new ≡ backward_leaves format frame.now lent.old) }
{
    if !carries_year(format) {
        return Err(Refusal::UnknownFormat);
    }
    if !both_fit(format, frame.len(), lent.len()) {
        return Err(Refusal::WrongLength);
    }
    let reading = read(format, frame)?;
    put_backward(format, reading, lent)
}
