// Tries the settings 2 to 5 on a run of a generator's frames, damaged alike for each: the number of the element that brings the
// first report, the number of reports, and that of those which do not give the time of a frame that ends there.
// Its arguments are letter and expression, day, hundredths, year length, number of frames and, if any, the first year. The
// damages are read from standard input, a line for each: an element's number, a space and the character that is received
// in its place; or two more arguments say in the place of one element in how many a random symbol stands, and a seed.
#![tactic(auto)]

use command_line::{
    format_argument, limited_8, limited_16, limited_32, number_argument, number_or_0,
};
use damages::{Damages, damages_in, scattered};
use layout::frame_size;
use output::print_refused;
use program_io::{argument_count, read_full, tell, write};
use simulate::simulate;
use simulation::Counts;
use std::fmt::InlineText;
use timecode::{Format, Time};
use version::print_version;

const FIRST_SETTING: u8 = 2;

const LAST_SETTING: u8 = 5;

#[derive(Clone, Copy)]
struct Request {
    format: Format,
    start: Time,
    given: u16,
    frames: u32,
}

fn asked_for(rt: &HostRuntime, count: usize) -> Option<Request> {
    Some(Request {
        format: format_argument(rt, 1)?,
        start: Time {
            year: limited_8(number_or_0(rt, count, 6)?),
            day: limited_16(number_argument(rt, 2)?),
            hundredths: limited_32(number_argument(rt, 3)?),
        },
        given: limited_16(number_argument(rt, 4)?),
        frames: limited_32(number_argument(rt, 5)?),
    })
}

// Before the first line stands one that says what the columns are, and a dash stands where no report came.
fn print_line(rt: &HostRuntime, setting: u8, counts: Counts) -> bool {
    let head = if setting == FIRST_SETTING {
        "setting first reports false\n"
    } else {
        ""
    };
    let first = if counts.reports == 0 {
        InlineText::<20>::of("-")
    } else {
        InlineText::<20>::of(counts.first)
    };
    let line = InlineText::<128>::of(format_args!(
        "{head}{setting} {} {} {}\n",
        first.as_str(),
        counts.reports,
        counts.wrong
    ));
    write(rt, line.as_str().as_bytes())
}

// The line of one setting, or that of a refusal; whether the next setting is to be tried.
fn print_setting(rt: &HostRuntime, request: Request, setting: u8, damages: &Damages) -> bool {
    let numbers = damages.numbers();
    let simulated = simulate(
        request.format,
        request.start,
        request.frames,
        request.given,
        &[setting],
        &[numbers.len()],
        numbers,
        damages.symbols(),
    );
    match simulated {
        Ok(counts) => print_line(rt, setting, counts[0]),
        Err(refusal) => {
            print_refused(rt, refusal);
            false
        }
    }
}

// What is refused with one setting is refused with each.
fn print_table(rt: &HostRuntime, request: Request, damages: &Damages) {
    for setting in FIRST_SETTING..=LAST_SETTING {
        if !print_setting(rt, request, setting, damages) {
            return;
        }
    }
}

// Damages from standard input. Where it fills the buffer, more may follow, and there is no room for so many lines.
fn damages_read(rt: &HostRuntime, damages: &mut Damages) -> Option<()> {
    let mut text = [0u8; 65536];
    let n = read_full(&mut rt.stdin(), &mut text);
    if n == text.len() {
        return None;
    }
    damages_in(&text[..n], damages)
}

fn damages_scattered(rt: &HostRuntime, request: Request, damages: &mut Damages) -> Option<()> {
    let times = number_argument(rt, 7)?;
    let seed = number_argument(rt, 8)?;
    let elements = u64::from(request.frames) * frame_size(request.format) as u64;
    scattered(elements, times, seed, damages)
}

// Nothing where the arguments or the damages are malformed.
fn try_settings(rt: &HostRuntime) -> Option<()> {
    let count = argument_count(rt);
    let request = asked_for(rt, count)?;
    let mut damages = Damages::none();
    match count {
        0..=7 => damages_read(rt, &mut damages)?,
        9 => damages_scattered(rt, request, &mut damages)?,
        _ => return None,
    }
    print_table(rt, request, &damages);
    Some(())
}

fn main(rt: HostRuntime) {
    if print_version(&rt, b"timetry") {
        return;
    }
    if try_settings(&rt).is_none() {
        tell(
            &rt,
            b"usage: timetry FORMAT DAY HUNDREDTHS YEAR-LENGTH FRAMES [YEAR [ONE-IN SEED]]; standard input has lines NUMBER SYMBOL, up to 16384\n",
        );
    }
}
