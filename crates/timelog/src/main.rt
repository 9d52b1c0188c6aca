// Prints the reports of the log on standard input, a line each; or, with the argument `make`, makes the log of such lines.
// With `make` and a year it takes the lines of timeread, whose first number is an element's, and gives each report that year.
#![tactic(auto)]

mod making;
mod printing;

use arguments::decimal_in;
use making::make_log;
use printing::print_log;
use program_io::{argument_as, argument_count, tell};
use version::print_version;

// A log printed, or one made: of reports with their own years, or all with a given year.
#[derive(Clone, Copy, Debug, PartialEq, Eq)]
enum Asked {
    Print,
    Make(Option<u8>),
}

// Whether the first argument is the word.
fn is_make(rt: &HostRuntime) -> bool {
    argument_as(rt, 1, |word| Some(word == b"make".as_slice())).unwrap_or(false)
}

// A number past the end of its type becomes the type's last, which is no year either.
fn year_argument(rt: &HostRuntime) -> Option<u8> {
    argument_as(rt, 2, decimal_in).map(|year| u8::try_from(year).unwrap_or(u8::MAX))
}

fn asked_for(rt: &HostRuntime) -> Option<Asked> {
    match argument_count(rt) {
        0 | 1 => Some(Asked::Print),
        2 if is_make(rt) => Some(Asked::Make(None)),
        3 if is_make(rt) => Some(Asked::Make(Some(year_argument(rt)?))),
        _ => None,
    }
}

fn main(rt: HostRuntime) {
    if print_version(&rt, b"timelog") {
        return;
    }
    match asked_for(&rt) {
        Some(Asked::Print) => print_log(&rt),
        Some(Asked::Make(year)) => make_log(&rt, year),
        None => tell(
            &rt,
            b"usage: timelog < LOG, or timelog make [YEAR] < LINES > LOG\n",
        ),
    }
}
