// Some bytes of a recording heard at once: the progress after them, and their lines.
// The lent memory and the place in it stay two parameters: the promises of `hear` and of progress's functions name both.
#![tactic(auto)]

ghost use Rattle.std.specs.Prelude.{◌≡◌, false, ◌++◌, ◌+◌, ◌*◌, ◌≤◌, length, take};
ghost use Rattle.block.specs.Blocks.{lists};
ghost use Rattle.progress.specs.Progress.{after_feeds, text_feeds};
ghost use Rattle.hearing.specs.Bytes.{after_of, text_of};
ghost use Rattle.hearing.specs.Hearing.{first_lines, taken_of, reports_of, progress_after};

use block::{FedBlock, Taken};
use block_feed::feed_block;
use characters::decode;
use progress::{
    Progress, Progressed, feed_one, more_by, one_more, progress_at, progressed_at, put_report,
};
use timecode::{Refusal, Time};

// The progress after some symbols, how many they were, and where their lines end.
#[derive(Clone, Copy)]
struct Heard {
    progress: Progress,
    taken: usize,
    filled: usize,
}

// How many symbols a block took: none, if it was refused.
fn taken_of(answer: Result<Taken, Refusal>) -> usize
    ensures { result ≡ taken_of answer }
{
    match answer {
        Ok(Taken { symbols, .. }) => symbols,
        Err(_) => 0,
    }
}

// How many of them reported.
fn reports_of(answer: Result<Taken, Refusal>) -> usize
    ensures { result ≡ reports_of answer }
{
    match answer {
        Ok(Taken { reports, .. }) => reports,
        Err(_) => 0,
    }
}

// Puts a line for each of the first records. The symbol at index 0 is the next element.
// The lists and their count stay side by side, and an index is counted over them: the C interface's block gives its reports so.
fn put_lines(
    elements: u64,
    indexes: &[usize],
    years: &[u8],
    days: &[u16],
    hundredths: &[u32],
    controls: &[u64],
    count: usize,
    out: &mut [u8],
    start: usize,
) -> usize
    requires { (count ≤ length indexes.now) × (count ≤ length years.now) × (count ≤ length days.now) × (count ≤ length hundredths.now) × (count ≤ length controls.now) × (start + 64 * count ≤ 65536) × (length out.old ≡ 65536) }
    ensures { (result ≤ start + 64 * count) × (length out.new ≡ 65536) × (take result out.new ≡ take start out.old ++ first_lines elements (lists indexes.now years.now days.now hundredths.now controls.now) count) }
{
    let first = one_more(elements);
    let mut filled = start;
    for k in 0..count {
        let element = more_by(first, indexes[k]);
        let time = Time {
            year: years[k],
            day: days[k],
            hundredths: hundredths[k],
        };
        filled = put_report(out, filled, element, time, controls[k]);
    }
    filled
}

// The progress after the symbols that a block took.
fn progress_after(progress: Progress, fed: FedBlock) -> Progress
    ensures { result ≡ progress_after progress fed }
{
    let reader = fed.reader;
    let answer = fed.answer;
    progress_at(
        reader,
        more_by(progress.elements, taken_of(answer)),
        more_by(progress.reports, reports_of(answer)),
    )
}

fn heard_at(progress: Progress, taken: usize, filled: usize) -> Heard
    ensures { (result.progress ≡ progress) × (result.taken ≡ taken) × (result.filled ≡ filled) }
{
    Heard {
        progress,
        taken,
        filled,
    }
}

// Hears symbols as one block, with room for 16 reports. The symbol before which it stops is fed by itself, for its line:
// it is refused, or its report found no room.
fn hear_block(progress: Progress, symbols: &[u8], out: &mut [u8], at: usize) -> Heard
    requires { (progress.ended ≡ false) × (1 ≤ length symbols.now) × (at + 64 * length symbols.now ≤ 65536) × (length out.old ≡ 65536) }
    ensures { (1 ≤ result.taken) × (result.taken ≤ length symbols.now) × (result.filled ≤ at + 64 * result.taken) × (length out.new ≡ 65536) × (result.progress ≡ after_feeds progress (take result.taken symbols.now)) × (take result.filled out.new ≡ take at out.old ++ text_feeds progress (take result.taken symbols.now)) }
{
    let mut indexes = [0usize; 16];
    let mut years = [0u8; 16];
    let mut days = [0u16; 16];
    let mut hundredths = [0u32; 16];
    let mut controls = [0u64; 16];
    let reader = progress.reader;
    let fed = feed_block(
        reader,
        symbols,
        &mut indexes,
        &mut years,
        &mut days,
        &mut hundredths,
        &mut controls,
    );
    let answer = fed.answer;
    let filled = put_lines(
        progress.elements,
        &indexes,
        &years,
        &days,
        &hundredths,
        &controls,
        reports_of(answer),
        out,
        at,
    );
    let current = progress_after(progress, fed);
    let taken = taken_of(answer);
    if taken == symbols.len() {
        heard_at(current, taken, filled)
    } else {
        let told = feed_one(current, symbols[taken], out, filled);
        heard_at(told.progress, taken + 1, told.filled)
    }
}

// Hears some symbols, up to the first that is refused.
fn hear_symbols(progress: Progress, symbols: &[u8], out: &mut [u8], at: usize) -> Progressed
    requires { (length symbols.now ≤ 512) × (at ≤ 32704) × (length out.old ≡ 65536) }
    ensures { (result.filled ≤ 65536) × (length out.new ≡ 65536) × (result.progress ≡ after_feeds progress symbols.now) × (take result.filled out.new ≡ take at out.old ++ text_feeds progress symbols.now) }
{
    let mut current = progress;
    let mut taken = 0;
    let mut filled = at;
    // No `for`: how many symbols a turn takes, the block says.
    while taken < symbols.len() && !current.ended {
        let heard = hear_block(current, &symbols[taken..], out, filled);
        current = heard.progress;
        taken += heard.taken;
        filled = heard.filled;
    }
    progressed_at(current, filled)
}

// Hears some bytes and puts their lines behind those that are there.
pub fn hear(progress: Progress, bytes: &[u8], out: &mut [u8], at: usize) -> Progressed
    requires { (length bytes.now ≤ 512) × (at ≤ 32704) × (length out.old ≡ 65536) }
    ensures { (result.filled ≤ 65536) × (length out.new ≡ 65536) × (result.progress ≡ after_of progress bytes.now) × (take result.filled out.new ≡ take at out.old ++ text_of progress bytes.now) }
{
    let mut symbols = [0u8; 512];
    let count = decode(bytes, &mut symbols);
    hear_symbols(progress, &symbols[..count], out, at)
}
