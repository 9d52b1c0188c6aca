// Prints a recording that timeread reads: the first line, and the frames of a generator, a line each.
// Its arguments are letter and expression, day, hundredths, year length, number of frames and, if any, the control word,
// the kind of the first day and the first year. Where the format carries the year, its own length counts.
#![tactic(auto)]

ghost use Rattle.std.specs.Prelude.{◌≡◌, ◌-◌, ◌≤◌};
ghost use Rattle.generator.specs.Sending.{start_of};

use command_line::{
    format_argument, hexadecimal_argument, limited_8, limited_16, limited_32, number_argument,
    number_or_0,
};
use frametext::first_line;
use generator::{Generated, Start, begin, generate};
use output::{print_refused, write_first};
use program_io::{argument_count, tell, write};
use timecode::{Format, Time};
use version::print_version;

#[derive(Clone, Copy)]
struct Request {
    format: Format,
    start: Start,
    control: u64,
    given: u16,
    frames: u64,
}

// The control word, 0 where none is given.
fn control_argument(rt: &HostRuntime, count: usize) -> Option<u64> {
    if count < 7 {
        Some(0)
    } else {
        hexadecimal_argument(rt, 6)
    }
}

fn start_argument(rt: &HostRuntime, count: usize) -> Option<Start> {
    Some(Start {
        time: Time {
            year: limited_8(number_or_0(rt, count, 8)?),
            day: limited_16(number_argument(rt, 2)?),
            hundredths: limited_32(number_argument(rt, 3)?),
        },
        kind: limited_8(number_or_0(rt, count, 7)?),
    })
}

fn asked_for(rt: &HostRuntime) -> Option<Request> {
    let count = argument_count(rt);
    if 9 < count {
        return None;
    }
    Some(Request {
        format: format_argument(rt, 1)?,
        start: start_argument(rt, count)?,
        control: control_argument(rt, count)?,
        given: limited_16(number_argument(rt, 4)?),
        frames: number_argument(rt, 5)?,
    })
}

// Each part goes on where the one before ended; the end is reached unless nothing can be written any more.
fn print_frames(rt: &HostRuntime, request: Request) -> Generated
    ensures { (result.left ≤ request.frames) × (result.next ≡ start_of request.format request.start request.given (request.frames - result.left)) }
{
    let mut out = [0u8; 65536];
    let mut next = request.start;
    let mut left = request.frames;
    // Each turn takes as many frames as fit, so how many turns there are is not known before.
    while 0 < left {
        let generated = generate(
            &mut out,
            request.format,
            next,
            request.control,
            request.given,
            left,
        );
        next = generated.next;
        left = generated.left;
        if !write_first(rt, &mut out, generated.filled) {
            break;
        }
    }
    Generated {
        next,
        left,
        filled: 0,
    }
}

fn print_recording(rt: &HostRuntime, request: Request) {
    let line = first_line(request.format);
    if write(rt, &line) {
        print_frames(rt, request);
    }
}

// Every check is made before anything is printed.
fn print_checked(rt: &HostRuntime, request: Request) {
    let answer = begin(
        request.format,
        request.start,
        request.control,
        request.given,
    );
    match answer {
        Ok(()) => print_recording(rt, request),
        Err(refusal) => print_refused(rt, refusal),
    }
}

fn main(rt: HostRuntime) {
    if print_version(&rt, b"timewrite") {
        return;
    }
    match asked_for(&rt) {
        Some(request) => print_checked(&rt, request),
        None => tell(
            &rt,
            b"usage: timewrite FORMAT DAY HUNDREDTHS YEAR-LENGTH FRAMES [CONTROL-WORD [DAY-KIND [YEAR]]]\n",
        ),
    }
}
