// timeread's work: a recording in characters becomes the list of Feeds that it is, and its reports lines.
#![tactic(auto)]

ghost use Rattle.std.specs.Prelude.{◌≡◌, ◌+◌, ◌≤◌, ◌<◌, length, take};
ghost use Rattle.lines.specs.Text.{counts_line};
ghost use Rattle.progress.specs.Progress.{running_at};
ghost use Rattle.listing.specs.Promises.{made_from_head, ListsBytes, PutsLastLine};

use hearing::hear;
use lines::{counts_line, put_text};
use progress::{Progress, progress_at};
use stream::Reader;
use timecode::{Format, Refusal};

// Up to here there is room in 65,536 bytes for a line of 64 for each of a part's 512 symbols, and for the last line.
const LAST_START: usize = 32_704;

// timeread keeps two frames.
const SETTING: u8 = 2;

// How many bytes were taken, how many were put, and the progress.
#[derive(Clone, Copy)]
pub struct Listed {
    pub progress: Progress,
    pub taken: usize,
    pub filled: usize,
}

// The first line, of which the input's first three bytes decide: a fresh reader of its format, or number 1.
pub fn begin(head: &[u8]) -> Result<Reader, Refusal>
    ensures { result ≡ made_from_head head.now }
{
    match head {
        [letter, digit @ b'0'.., b'\n', ..] => {
            let format = Format {
                letter: *letter,
                expression: *digit - b'0',
            };
            Reader::fresh(format, SETTING)
        }
        _ => Err(Refusal::UnknownFormat),
    }
}

// Nothing received, nothing printed.
pub fn start(reader: Reader) -> Progress
    ensures { result ≡ running_at reader 0 0 }
{
    progress_at(reader, 0, 0)
}

// Where the bytes that are fed together end: at most 512, so that there is room for their lines.
fn part_end(from: usize, end: usize) -> usize
    requires { from < end }
    ensures { (from < result) × (result ≤ end) × (result ≤ from + 512) }
{
    from + (end - from).min(512)
}

// A part has no more reports than symbols: below half of the lent memory there is room for their lines.
fn fill(progress: Progress, bytes: &[u8], out: &mut [u8]) -> Listed
    requires { length out.old ≡ 65536 }
    ensures { ListsBytes progress bytes.now result out.new }
{
    let mut current = progress;
    let mut taken = 0;
    let mut filled = 0;
    // No `for`: the bytes or the room may end first, and how many bytes were taken is answered.
    while taken < bytes.len() && filled <= LAST_START {
        let end = part_end(taken, bytes.len());
        let after = hear(current, &bytes[taken..end], out, filled);
        current = after.progress;
        filled = after.filled;
        taken = end;
    }
    Listed {
        progress: current,
        taken,
        filled,
    }
}

// Puts the lines of the bytes taken: all of them, unless about half of the lent memory is filled.
pub fn list(progress: Progress, bytes: &[u8], out: &mut [u8; 65536]) -> Listed
    ensures { ListsBytes progress bytes.now result out.new }
{
    fill(progress, bytes, out)
}

fn put_counts(out: &mut [u8], elements: u64, reports: u64) -> usize
    requires { length out.old ≡ 65536 }
    ensures { (length out.new ≡ 65536) × (result ≤ 65536) × (take result out.new ≡ counts_line elements reports) }
{
    let mut line = [0u8; 64];
    let k = counts_line(&mut line, elements, reports);
    put_text(out, 0, &line[..k])
}

fn end(progress: Progress, out: &mut [u8]) -> usize
    requires { length out.old ≡ 65536 }
    ensures { PutsLastLine progress result out.new }
{
    if progress.ended {
        0
    } else {
        put_counts(out, progress.elements, progress.reports)
    }
}

// Puts the last line: how many elements and reports there were, unless a refusal was the last.
pub fn finish(progress: Progress, out: &mut [u8; 65536]) -> usize
    ensures { PutsLastLine progress result out.new }
{
    end(progress, out)
}
