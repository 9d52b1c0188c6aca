// timeread's progress: what one Feed makes of it, and the line of its answer.
// The lent memory and the place in it stay two parameters: the promises of `put_report` and `feed_one`, which hearing calls, name both.
#![tactic(auto)]

ghost use Rattle.std.specs.Prelude.{◌≡◌, false, ◌++◌, ◌+◌, ◌≤◌, length, take};
ghost use Rattle.timecode.specs.Answers.{refusal_number};
ghost use Rattle.lines.specs.Text.{report_line, refused_line};
ghost use Rattle.progress.specs.Progress.{running_at, one_more, more_by, answered, answer_line, after_feed, feed_line};

use lines::{put_text, refused_line, report_line};
use refusals::number_of;
use stream::{Reader, answer_to, next_reader};
use timecode::{Answer, Refusal, Time};

// What timeread keeps from one read to the next.
#[derive(Clone, Copy)]
pub struct Progress {
    pub reader: Reader,
    pub elements: u64,
    pub reports: u64,
    pub ended: bool,
}

// The progress after some bytes, and where their lines end.
#[derive(Clone, Copy)]
pub struct Progressed {
    pub progress: Progress,
    pub filled: usize,
}

pub fn progress_at(reader: Reader, elements: u64, reports: u64) -> Progress
    ensures { result ≡ running_at reader elements reports }
{
    Progress {
        reader,
        elements,
        reports,
        ended: false,
    }
}

// A count with so many more. A count stays at the greatest 64-bit number, which no recording is long enough to reach.
pub fn more_by(count: u64, k: usize) -> u64
    ensures { result ≡ more_by k count }
{
    count.saturating_add(k as u64)
}

pub fn one_more(count: u64) -> u64
    ensures { result ≡ one_more count }
{
    count.saturating_add(1)
}

fn advance(progress: Progress, reader: Reader, answer: Answer) -> Progress
    ensures { result ≡ answered progress reader answer }
{
    let elements = progress.elements;
    let reports = progress.reports;
    match answer {
        Answer::Quiet => Progress {
            reader,
            elements: one_more(elements),
            reports,
            ended: false,
        },
        Answer::Report { .. } => Progress {
            reader,
            elements: one_more(elements),
            reports: one_more(reports),
            ended: false,
        },
        Answer::Refused(_) => Progress {
            reader,
            elements,
            reports,
            ended: true,
        },
    }
}

pub fn put_report(out: &mut [u8], at: usize, element: u64, time: Time, control: u64) -> usize
    requires { (at + 64 ≤ 65536) × (length out.old ≡ 65536) }
    ensures { (result ≤ at + 64) × (length out.new ≡ 65536) × (take result out.new ≡ take at out.old ++ report_line element time control) }
{
    let mut line = [0u8; 64];
    let k = report_line(&mut line, element, time, control);
    put_text(out, at, &line[..k])
}

fn put_refused(out: &mut [u8], at: usize, refusal: Refusal) -> usize
    requires { (at + 64 ≤ 65536) × (length out.old ≡ 65536) }
    ensures { (result ≤ at + 64) × (length out.new ≡ 65536) × (take result out.new ≡ take at out.old ++ refused_line (refusal_number refusal)) }
{
    let mut line = [0u8; 64];
    let k = refused_line(&mut line, number_of(refusal) as u64);
    put_text(out, at, &line[..k])
}

fn put_line(out: &mut [u8], at: usize, element: u64, answer: Answer) -> usize
    requires { (at + 64 ≤ 65536) × (length out.old ≡ 65536) }
    ensures { (result ≤ at + 64) × (length out.new ≡ 65536) × (take result out.new ≡ take at out.old ++ answer_line element answer) }
{
    match answer {
        Answer::Quiet => at,
        Answer::Report { time, control } => put_report(out, at, element, time, control),
        Answer::Refused(refusal) => put_refused(out, at, refusal),
    }
}

pub fn progressed_at(progress: Progress, filled: usize) -> Progressed
    ensures { (result.progress ≡ progress) × (result.filled ≡ filled) }
{
    Progressed { progress, filled }
}

// One Feed by itself, with its line.
pub fn feed_one(progress: Progress, symbol: u8, out: &mut [u8], at: usize) -> Progressed
    requires { (progress.ended ≡ false) × (at + 64 ≤ 65536) × (length out.old ≡ 65536) }
    ensures { (result.filled ≤ at + 64) × (length out.new ≡ 65536) × (result.progress ≡ after_feed progress symbol) × (take result.filled out.new ≡ take at out.old ++ feed_line progress symbol) }
{
    let reader = progress.reader;
    let next = next_reader(reader, symbol);
    let answer = answer_to(reader, symbol, next);
    let current = advance(progress, next, answer);
    let filled = put_line(out, at, current.elements, answer);
    progressed_at(current, filled)
}
