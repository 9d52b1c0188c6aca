// Lines of a whole recording, as timelook prints them. Elements are counted from 1, places from 0.
// Nothing says which bytes a value displays, so these promise to be safe and to end, and no more.
#![tactic(auto)]

use std::fmt;
use texts::Page;
use timecode::Format;

// A format's letter and expression.
#[derive(Clone, Copy)]
pub struct Name(pub Format);

impl fmt::Display for Name {
    fn fmt<W: fmt::Write>(&self, f: &mut fmt::Formatter<W>) -> fmt::Result {
        let letter = char::from(self.0.letter);
        let expression = self.0.expression;
        write!(f, "{letter}{expression}")
    }
}

// How often each symbol stands in a recording.
#[derive(Clone, Copy)]
pub struct Symbols {
    pub zeros: usize,
    pub ones: usize,
    pub marks: usize,
    pub spoiled: usize,
}

impl fmt::Display for Symbols {
    fn fmt<W: fmt::Write>(&self, f: &mut fmt::Formatter<W>) -> fmt::Result {
        write!(
            f,
            "zeros {}, ones {}, marks {}, spoiled {}",
            self.zeros, self.ones, self.marks, self.spoiled
        )
    }
}

pub fn put_head(page: &mut Page, format: Format, elements: usize, n: usize) {
    let name = Name(format);
    page.put(format_args!("{name}: {elements} elements, {n} to a frame\n"));
}

pub fn put_longer(page: &mut Page) {
    page.put("there are more elements, which are not looked at\n");
}

// The place of the first frame that Scan finds, if there is one.
pub fn put_first_frame(page: &mut Page, place: Option<usize>) {
    match place {
        Some(place) => {
            let element = place.wrapping_add(1);
            page.put(format_args!("Scan finds the first frame at {element}\n"));
        }
        None => page.put("Scan finds no frame\n"),
    }
}

pub fn put_total(page: &mut Page, reports: u64, stretches: u64) {
    page.put(format_args!("in all: reports {reports}, stretches {stretches}\n"));
}
