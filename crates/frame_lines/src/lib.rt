// Lines of frames that are due, as timelook prints them. Elements are counted from 1, places from 0.
// Nothing says which bytes a value displays, so these promise to be safe and to end, and no more.
#![tactic(auto)]

use frametext::character_of;
use look_times::Moment;
use refusals::number_of;
use texts::Page;
use timecode::{Refusal, Time};

// What a refusal of Read's says.
fn words_of(refusal: Refusal) -> &'static str {
    match refusal {
        Refusal::MisplacedMark(_) => ", mark missing or where none belongs",
        Refusal::InvalidElement(_) => ", not a symbol of its place",
        Refusal::InvalidDigit => ", digits that are no time",
        Refusal::SecondsDiffer => ", straight binary seconds differ from the digits",
        _ => "",
    }
}

// The frame at a place, and how Read refuses it.
pub fn put_refused(page: &mut Page, place: usize, refusal: Refusal) {
    let element = place.wrapping_add(1);
    let number = number_of(refusal);
    let words = words_of(refusal);
    page.put(format_args!("  frame at {element} refused {number}{words}"));
}

// The element at a place, and its symbol.
pub fn put_offending(page: &mut Page, place: usize, symbol: u8) {
    let element = place.wrapping_add(1);
    let character = char::from(character_of(symbol));
    page.put(format_args!(": element {element} is {character}"));
}

// The place of the next frame, where it is not the one at which this frame ends.
pub fn put_next(page: &mut Page, next: usize, due: usize) {
    if next != due {
        let begins = next.wrapping_add(1);
        let expected = due.wrapping_add(1);
        page.put(format_args!("; the next begins at {begins}, not {expected}"));
    }
    page.push(b'\n');
}

// Refused frames one behind another that have no line of their own.
pub fn put_more_refused(page: &mut Page, frames: usize, last: usize) {
    page.put(format_args!("  and {frames} more refused, up to element {last}\n"));
}

// An accepted frame whose time is not next after that of the accepted one before it.
pub fn put_jump(page: &mut Page, place: usize, before: Time, time: Time) {
    let element = place.wrapping_add(1);
    let said = Moment(time);
    let last = Moment(before);
    page.put(format_args!("  frame at {element} says {said}, not next after {last}\n"));
}

// A frame that the recording's end cuts short, and how many of its elements are there.
pub fn put_cut(page: &mut Page, place: usize, there: usize) {
    let element = place.wrapping_add(1);
    page.put(format_args!("  frame at {element} cut short: elements {there}\n"));
}
