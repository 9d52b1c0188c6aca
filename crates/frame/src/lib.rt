// Write and Read: frames of all formats, each call equal to its definition for every input.
// A call looks up the format's row once. Letter X's elements are those of `tape`. Write splits the time into digits once; the elements come from the digits alone. Read
// writes the digits that it finds again and compares: the lowest index where the two differ is the lowest that offends.
#![tactic(auto)]

ghost use Rattle.std.specs.Prelude.{◌≡◌, true, false, cond, ◌&&◌, List, ℕ, ◌≤◌, ◌<◌, eqb, ltb, get_or, length};
ghost use Rattle.timecode.specs.Formats.{is_x, known, size};
ghost use Rattle.timecode.specs.Frames.{written, write_of, write_leaves, are_symbols, read_of, Valid};
ghost use Rattle.timecode.specs.declared.Format.{Format};
ghost use Rattle.layout.specs.Tables.{RowOf, IsRow, run_starts, mark_places};
ghost use Rattle.elements.specs.RunBits.{put_in};
ghost use Rattle.elements.specs.Tens.{IsFrame};
ghost use Rattle.frame.specs.Offences.{offence_at, offended_of, lowest_of, offence_in};
ghost use Rattle.frame.specs.Exits.{FrameOf};

use clock::{lies_on, second_allowed};
use dates::{is_x, last_day_in, turn_day, year_carried};
use digits::{control_fits, digits_of, meaning};
use elements::{digits_in, middle_bits, put_tens, tail_bits, time_bits};
use layout::{Row, places_of, row_of, takes, widths_of};
use tape::{read_tape, write_tape};
use timecode::{Format, MARK, Reading, Refusal, SPOILED, Time};

// The index of a difference where there is none: past the end of every frame.
const NOWHERE: u8 = 255;

// Write's checks by the format's row and whether it is X, for a frame of that many bytes.
fn check_write(
    row: Row,
    x: bool,
    expression: u8,
    time: Time,
    control: u64,
    bytes: usize,
) -> Result<(), Refusal>
    requires { IsRow row }
    ensures { (f : Format) (lent : List ℕ) → RowOf f row → x ≡ is_x f → f.expression ≡ expression → bytes ≡ length lent → result ≡ write_of f time control lent }
{
    if !takes(row, expression) {
        return Err(Refusal::UnknownFormat);
    }
    if !year_carried(row.year, time.year) {
        return Err(Refusal::InvalidYear);
    }
    let last = turn_day(x, last_day_in(row.year, time.year));
    if !lies_on(row.interval, last, time) {
        return Err(Refusal::InvalidTime);
    }
    if !second_allowed(row.leap, time) {
        return Err(Refusal::SecondNotCarried);
    }
    let widths = widths_of(row.runs);
    if !control_fits(&widths, control) {
        return Err(Refusal::ControlTooLong);
    }
    if bytes != row.elements {
        return Err(Refusal::WrongLength);
    }
    Ok(())
}

fn put_frame(row: Row, time: Time, control: u64, frame: &mut [u8])
    requires { IsRow row × IsFrame (length frame.old) }
    ensures { (f : Format) → RowOf f row → is_x f ≡ false → Valid f time control → length frame.old ≡ size f → frame.new ≡ written f time control }
{
    let widths = widths_of(row.runs);
    let digits = digits_of(&widths, time, control);
    let places = places_of(row);
    let head = time_bits(&places, &digits) + middle_bits(&places, &digits);
    let tail = tail_bits(&places, &digits, frame.len());
    let marks = row.marks;
    put_tens(&marks, frame, 0, 6, head);
    if frame.len() == 100 {
        put_tens(&marks, frame, 6, 10, tail);
    }
}

// Writes a time and a control word; every byte is set, or, where it refuses, none.
pub fn write(format: Format, time: Time, control: u64, frame: &mut [u8]) -> Result<(), Refusal>
    ensures { (result ≡ write_of format time control frame.old) × (frame.new ≡ write_leaves format time control frame.old) }
{
    let row = row_of(format);
    let x = is_x(format);
    check_write(row, x, format.expression, time, control, frame.len())?;
    if x {
        write_tape(time, frame);
        return Ok(());
    }
    put_frame(row, time, control, frame);
    Ok(())
}

// No symbol is above 3. Like `agree` it looks at every element: a loop that never ends early is compiled to take many at a time.
fn are_symbols(frame: &[u8]) -> bool
    ensures { result ≡ are_symbols frame.now }
{
    let mut all = true;
    for symbol in frame {
        all &= *symbol <= SPOILED;
    }
    all
}

// What offends at an index where the frame and the one written again differ: 5 where either has a mark there, else 6.
fn offence_at(again: u8, symbol: u8, index: usize) -> Option<Refusal>
    ensures { result ≡ offence_at again symbol index }
{
    if again == MARK {
        return Some(Refusal::MisplacedMark(index));
    }
    if symbol == MARK {
        return Some(Refusal::MisplacedMark(index));
    }
    Some(Refusal::InvalidElement(index))
}

// The index where its two elements differ, else no index.
fn place(again: u8, symbol: u8, index: u8) -> u8
    ensures { result ≡ cond (eqb symbol again) 255 index }
{
    if symbol == again { NOWHERE } else { index }
}

// The lowest index where the two differ. Like `agree` it looks at every element; the least of bytes is gathered sixteen at a time.
fn lowest_difference(again: &[u8], frame: &[u8]) -> u8
    requires { (length frame.now ≤ length again.now) × (length frame.now ≤ 255) }
    ensures { (result ≡ lowest_of again.now frame.now) × ((result ≡ 255 → ⊥) → result < length frame.now) }
{
    let mut lowest = NOWHERE;
    for index in 0..frame.len() {
        lowest = lowest.min(place(again[index], frame[index], index as u8));
    }
    lowest
}

// What offends at the lowest index where the two differ.
fn lowest_offence(again: &[u8], frame: &[u8]) -> Option<Refusal>
    requires { (length frame.now ≤ length again.now) × (length frame.now ≤ 255) }
    ensures { result ≡ offended_of again.now frame.now }
{
    let lowest = lowest_difference(again, frame);
    if lowest == NOWHERE {
        return None;
    }
    let index = lowest as usize;
    offence_at(again[index], frame[index], index)
}

// The two agree as far as the frame goes. It promises nothing of a false answer: the lowest index where they differ is
// then looked for, with the same reading in the end, only later.
fn agree(again: &[u8], frame: &[u8]) -> bool
    requires { length frame.now ≤ length again.now }
    ensures { result ≡ true → (k : ℕ) → k < length frame.now → get_or frame.now k 0 ≡ get_or again.now k 0 }
{
    let mut same = true;
    for i in 0..frame.len() {
        same &= frame[i] == again[i];
    }
    same
}

// What offends in the frame, beside the one written again from its digits: a symbol above 3, or the lowest index where they differ.
fn offence_in(again: &[u8], frame: &[u8]) -> Option<Refusal>
    requires { (length frame.now ≤ length again.now) × ((k : ℕ) → k < length frame.now → get_or again.now k 0 ≤ 3) × (length frame.now ≤ 255) }
    ensures { result ≡ offence_in again.now frame.now }
{
    if agree(again, frame) {
        return None;
    }
    if are_symbols(frame) {
        return lowest_offence(again, frame);
    }
    Some(Refusal::UnknownSymbol)
}

// What offends in a frame beside the digits that stand in it, which are written again for as many elements.
fn offence_beside(places: &[u8], marks: &[u8], digits: &[u64], frame: &[u8]) -> Option<Refusal>
    requires { (places.now ≡ run_starts) × (marks.now ≡ mark_places) × (length digits.now ≡ 20) × IsFrame (length frame.now) }
    ensures { result ≡ offence_in (put_in (length frame.now) digits.now) frame.now }
{
    let head = time_bits(places, digits) + middle_bits(places, digits);
    if frame.len() == 100 {
        let mut again = [0u8; 100];
        put_tens(marks, &mut again, 0, 6, head);
        put_tens(marks, &mut again, 6, 10, tail_bits(places, digits, 100));
        return offence_in(&again, frame);
    }
    let mut again = [0u8; 60];
    put_tens(marks, &mut again, 0, 6, head);
    // The slice says that there are 60: else the loops would look at the last 12 singly.
    offence_in(&again, &frame[0..60])
}

fn read_frame(row: Row, frame: &[u8]) -> Result<Reading, Refusal>
    requires { FrameOf row frame.now }
    ensures { (f : Format) → known f ≡ true → is_x f ≡ false → RowOf f row → length frame.now ≡ size f → result ≡ read_of f frame.now }
{
    let places = places_of(row);
    let marks = row.marks;
    let digits = digits_in(&places, row.runs, frame);
    let offence = offence_beside(&places, &marks, &digits, frame);
    match offence {
        Some(refusal) => Err(refusal),
        None => {
            let widths = widths_of(row.runs);
            meaning(row.leap, row.year, &widths, &digits)
        }
    }
}

// The time and the control word that the frame's elements say.
pub fn read(format: Format, frame: &[u8]) -> Result<Reading, Refusal>
    ensures { result ≡ read_of format frame.now }
{
    let row = row_of(format);
    if takes(row, format.expression) {
        if frame.len() == row.elements {
            if is_x(format) {
                return read_tape(frame);
            }
            return read_frame(row, frame);
        }
        return Err(Refusal::WrongLength);
    }
    Err(Refusal::UnknownFormat)
}
