// The lines of a generator's frames, as many at a time as lent memory has room for.
// The day on which it starts has any kind that Step takes; every later day is usual.
// The lent memory and the place in it stay two parameters of the one function that takes both: `put_text` of lines promises by both.
#![tactic(auto)]

ghost use Rattle.std.specs.Prelude.{◌≡◌, ◌++◌, ◌+◌, ◌≤◌, take};
ghost use Rattle.generator.specs.Sending.{begun_of, kind_after, next_start, frame_line_for, Generates};

use clock::step;
use frametext::frame_line;
use lines::put_text;
use timecode::{Format, Refusal, Time};

// Up to here there is room in 65,536 bytes for a line of 256.
const LAST_START: usize = 65_280;

// Where frames start: the time of the first, and the kind of its day.
#[derive(Clone, Copy)]
pub struct Start {
    pub time: Time,
    pub kind: u8,
}

// Where the next frame starts, how many frames are left, and how many bytes were put.
#[derive(Clone, Copy)]
pub struct Generated {
    pub next: Start,
    pub left: u64,
    pub filled: usize,
}

// Whether there are such frames: Write's checks of the first of them, then Step's of its time, the year length and the kind.
pub fn begin(format: Format, start: Start, control: u64, given: u16) -> Result<(), Refusal>
    ensures { result ≡ begun_of format start control given }
{
    let mut first = [0u8; 256];
    frame_line(format, start.time, control, &mut first)?;
    step(format, start.time, given, start.kind)?;
    Ok(())
}

// The kind belongs to the first day alone.
#[tactic(auto, unfolding(crate::specs::Sending::kind_after))]
fn kind_after(time: Time, next: Time, kind: u8) -> u8
    ensures { result ≡ kind_after time next kind }
{
    if time.day == next.day {
        kind
    } else {
        Time::USUAL_DAY
    }
}

// A refused step leaves the start; after `begin` none is.
fn next_start(format: Format, start: Start, given: u16) -> Start
    ensures { result ≡ next_start format start given }
{
    match step(format, start.time, given, start.kind) {
        Ok(next) => Start {
            time: next,
            kind: kind_after(start.time, next, start.kind),
        },
        Err(_) => start,
    }
}

fn put_next(out: &mut [u8; 65536], at: usize, format: Format, time: Time, control: u64) -> usize
    requires { at + 256 ≤ 65536 }
    ensures { (result ≤ 65536) × (take result out.new ≡ take at out.old ++ frame_line_for format time control) }
{
    let mut line = [0u8; 256];
    match frame_line(format, time, control, &mut line) {
        Ok(k) => put_text(out, at, &line[..k]),
        Err(_) => at,
    }
}

// Puts the lines of the first of so many frames: all of them, unless the lent memory has no room for one line more.
pub fn generate(
    out: &mut [u8; 65536],
    format: Format,
    start: Start,
    control: u64,
    given: u16,
    frames: u64,
) -> Generated
    ensures { Generates format start control given frames result out.new }
{
    let mut next = start;
    let mut left = frames;
    let mut filled = 0;
    // No `for`: the frames or the room may end first, and how many frames are left is answered.
    while 0 < left && filled <= LAST_START {
        filled = put_next(out, filled, format, next.time, control);
        next = next_start(format, next, given);
        left -= 1;
    }
    Generated { next, left, filled }
}
