// Prints the listing of the recording that a reader gives on standard output.
// What a read brings and where a write goes is the system's: beneath this crate nothing says which bytes they are,
// or that a call failed.
#![tactic(auto)]

ghost use Rattle.std.specs.Prelude.{◌≡◌};
ghost use Rattle.std.proofs.Common.{Break};
ghost use Rattle.progress.specs.Progress.{running_at};
ghost use Rattle.printing.specs.Printing.{stopped, Prints, AfterRead, Reads, ReadsAll};

use listing::{begin, finish, list, start};
use output::{print_refused, write_first};
use program_io::read;
use progress::Progress;
use recording_head::read_head;
use std::io::Read;
use std::ops::ControlFlow;
use stream::Reader;

// The progress after a read: to go on with where another read is to come, or the last one.
type Printed = ControlFlow<Progress, Progress>;

// Where a read or a write has failed, no other line follows.
fn stop(progress: Progress) -> Printed
    ensures { result ≡ Break (stopped progress) }
{
    ControlFlow::Break(Progress {
        ended: true,
        ..progress
    })
}

// Lists one read's bytes, and writes the lines whenever the output is full, and at the end.
fn print_part(rt: &HostRuntime, progress: Progress, bytes: &[u8], out: &mut [u8; 65536]) -> Printed
    ensures { Prints progress bytes.now result }
{
    let mut current = progress;
    let mut taken = 0;
    // No `for`: how many bytes a turn takes, the listing says.
    while taken < bytes.len() {
        let listed = list(current, &bytes[taken..], out);
        current = listed.progress;
        taken += listed.taken;
        if !write_first(rt, out, listed.filled) {
            return stop(current);
        }
    }
    if current.ended {
        ControlFlow::Break(current)
    } else {
        ControlFlow::Continue(current)
    }
}

// Prints by what one read gave: that it failed, the end of the input, or how many bytes it brought.
fn print_result(
    rt: &HostRuntime,
    progress: Progress,
    got: Option<usize>,
    input: &[u8],
    out: &mut [u8; 65536],
) -> Printed
    ensures { AfterRead progress got input.now result }
{
    match got {
        None => stop(progress),
        Some(0) => ControlFlow::Break(progress),
        Some(n) => print_part(rt, progress, &input[..n.min(input.len())], out),
    }
}

fn print_read<R: Read>(
    rt: &HostRuntime,
    input: &mut R,
    progress: Progress,
    out: &mut [u8; 65536],
) -> Printed
    ensures { Reads progress result }
{
    let mut bytes = [0u8; 65536];
    let got = read(rt, input, &mut bytes);
    print_result(rt, progress, got, &bytes, out)
}

// A proved loop has to end, and nothing says that the input does: the reads are counted up to a number that no run reaches.
fn print_reads<R: Read>(
    rt: &HostRuntime,
    input: &mut R,
    reader: Reader,
    out: &mut [u8; 65536],
) -> Progress
    ensures { ReadsAll (running_at reader 0 0) result }
{
    let mut progress = start(reader);
    for _ in 0..u64::MAX {
        match print_read(rt, input, progress, out) {
            ControlFlow::Continue(next) => progress = next,
            ControlFlow::Break(last) => return last,
        }
    }
    progress
}

fn print_recording<R: Read>(rt: &HostRuntime, input: &mut R, reader: Reader) {
    let mut out = [0u8; 65536];
    let progress = print_reads(rt, input, reader, &mut out);
    let filled = finish(progress, &mut out);
    write_first(rt, &mut out, filled);
}

// The whole listing of what the reader gives; nothing where the first line cannot be read.
pub fn print_listing<R: Read>(rt: &HostRuntime, input: &mut R) {
    let mut head = [0u8; 3];
    let Ok(head) = read_head(rt, input, &mut head) else {
        return;
    };
    match begin(head) {
        Ok(reader) => print_recording(rt, input, reader),
        Err(refusal) => print_refused(rt, refusal),
    }
}
