// The frames of a recording that are due: one after another, with a line for each that is refused and for each whose time does not follow.
// Nothing says which bytes a value displays, so these promise to be safe and to end, and no more.
#![tactic(auto)]

use clock::next_after;
use due_frames::look_at;
use frame_lines::{put_cut, put_jump, put_more_refused, put_next, put_offending, put_refused};
use layout::frame_size;
use texts::{Output, WriteFailed};
use timecode::{Format, Refusal, SPOILED, Time};

// No line of timelook is longer than so many bytes; those of all formats are the longest.
pub const LONGEST_LINE: usize = 1536;

// So many refused frames one behind another have a line each.
const LINES_IN_A_ROW: usize = 3;

// The place where the next frame is due, how many refused ones stand before it in a row, and the time of an accepted one that does.
#[derive(Clone, Copy)]
pub struct Frames<'a> {
    format: Format,
    pub recording: &'a [u8],
    place: usize,
    refused: usize,
    accepted: Option<Time>,
}

impl<'a> Frames<'a> {
    pub fn starting_at(place: usize, format: Format, recording: &'a [u8]) -> Frames<'a> {
        Frames {
            format,
            recording,
            place,
            refused: 0,
            accepted: None,
        }
    }

    // The element that offends, if the refusal names one, by its index in the frame.
    fn put_offence(&self, out: &mut Output<'_>, refusal: Refusal) {
        if let Refusal::MisplacedMark(index) | Refusal::InvalidElement(index) = refusal {
            let place = self.place.wrapping_add(index);
            let symbol = self.recording.get(place).copied().unwrap_or(SPOILED);
            put_offending(&mut out.page, place, symbol);
        }
    }

    fn take_refused(
        &mut self,
        out: &mut Output<'_>,
        refusal: Refusal,
        next: usize,
    ) -> Result<(), WriteFailed> {
        self.refused = self.refused.wrapping_add(1);
        self.accepted = None;
        if self.refused <= LINES_IN_A_ROW {
            out.make_room(LONGEST_LINE)?;
            put_refused(&mut out.page, self.place, refusal);
            self.put_offence(out, refusal);
            let due = self.place.wrapping_add(frame_size(self.format));
            put_next(&mut out.page, next, due);
        }
        self.place = next;
        Ok(())
    }

    // Where a row of refused frames ends, how many had no line.
    fn end_row(&mut self, out: &mut Output<'_>) -> Result<(), WriteFailed> {
        if LINES_IN_A_ROW < self.refused {
            out.make_room(LONGEST_LINE)?;
            put_more_refused(&mut out.page, self.refused - LINES_IN_A_ROW, self.place);
        }
        self.refused = 0;
        Ok(())
    }

    fn take_accepted(
        &mut self,
        out: &mut Output<'_>,
        time: Time,
        next: usize,
    ) -> Result<(), WriteFailed> {
        self.end_row(out)?;
        if let Some(before) = self.accepted {
            if !next_after(self.format, before, time) {
                out.make_room(LONGEST_LINE)?;
                put_jump(&mut out.page, self.place, before, time);
            }
        }
        self.place = next;
        self.accepted = Some(time);
        Ok(())
    }

    fn take_frame(&mut self, out: &mut Output<'_>) -> Result<(), WriteFailed> {
        match look_at(self.format, self.recording, self.place) {
            Some(looked) => match looked.frame {
                Ok(time) => self.take_accepted(out, time, looked.next),
                Err(refusal) => self.take_refused(out, refusal, looked.next),
            },
            None => Ok(()),
        }
    }

    // The frames that are due up to an element. Each is due behind the one before, so that there are no more than elements.
    pub fn print_up_to(&mut self, out: &mut Output<'_>, end: usize) -> Result<(), WriteFailed> {
        let n = frame_size(self.format);
        if n <= end {
            for _ in 0..self.recording.len() {
                if end - n < self.place {
                    break;
                }
                self.take_frame(out)?;
            }
            self.end_row(out)?;
        }
        Ok(())
    }

    // The frames that are due up to the recording's end, and the one that it cuts short.
    pub fn print_rest(&mut self, out: &mut Output<'_>) -> Result<(), WriteFailed> {
        let end = self.recording.len();
        self.print_up_to(out, end)?;
        if self.place < end {
            out.make_room(LONGEST_LINE)?;
            put_cut(&mut out.page, self.place, end - self.place);
        }
        Ok(())
    }
}
