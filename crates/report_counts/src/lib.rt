// What a fresh reader of setting 2, timeread's, reports of a whole recording, read forwards or backwards; and how often a symbol stands in it.
// It assumes nothing of the recording.
#![tactic(auto)]

ghost use Rattle.std.specs.Prelude.{◌≡◌, ◌≤◌, ◌<◌, None, get_or, length, drop};
ghost use Rattle.report_counts.specs.Reports.{directed, reported_by, first_report, is_report, reports_of, reports_in, times_of};

use stream::{Reader, answer_to, next_reader};
use timecode::{Answer, Format, Time};

// timeread keeps two frames.
const SETTING: u8 = 2;

// The index of the symbol that brought a report, its time, and the reader after it.
#[derive(Clone, Copy)]
pub struct Reported {
    pub index: usize,
    pub time: Time,
    pub reader: Reader,
}

// 1 for a report, else 0.
fn is_report(answer: Answer) -> usize
    ensures { (result ≡ is_report answer) × (result ≤ 1) }
{
    match answer {
        Answer::Quiet => 0,
        Answer::Report { .. } => 1,
        Answer::Refused(_) => 0,
    }
}

fn reported_at(answer: Answer, index: usize, reader: Reader) -> Option<Reported>
    ensures { result ≡ reported_by answer index reader None }
{
    match answer {
        Answer::Quiet => None,
        Answer::Report { time, .. } => Some(Reported {
            index,
            time,
            reader,
        }),
        Answer::Refused(_) => None,
    }
}

// The next report from a place of the recording on.
pub fn next_report(reader: Reader, recording: &[u8], from: usize) -> Option<Reported>
    ensures { result ≡ first_report reader from (drop from recording.now) }
{
    let mut current = reader;
    for i in from..recording.len() {
        let symbol = recording[i];
        let next = next_reader(current, symbol);
        let reported = reported_at(answer_to(current, symbol, next), i, next);
        if reported.is_some() {
            return reported;
        }
        current = next;
    }
    None
}

// A symbol of the recording as it is read: from the front or from the end. It stays a function of an index: the edit backwards_twice
// halves that index, which no reversed iterator has.
fn symbol_at(recording: &[u8], backwards: bool, i: usize) -> u8
    requires { i < length recording.now }
    ensures { result ≡ get_or (directed backwards recording.now) i 0 }
{
    if backwards {
        recording[recording.len() - 1 - i]
    } else {
        recording[i]
    }
}

fn count_reports(reader: Reader, recording: &[u8], backwards: bool) -> usize
    ensures { result ≡ reports_of reader (directed backwards recording.now) }
{
    let mut current = reader;
    let mut count = 0;
    for i in 0..recording.len() {
        let symbol = symbol_at(recording, backwards, i);
        let next = next_reader(current, symbol);
        count += is_report(answer_to(current, symbol, next));
        current = next;
    }
    count
}

// How many reports a recording gives in a format, as it stands or backwards.
pub fn reports_in(format: Format, recording: &[u8], backwards: bool) -> usize
    ensures { result ≡ reports_in format (directed backwards recording.now) }
{
    match Reader::fresh(format, SETTING) {
        Ok(reader) => count_reports(reader, recording, backwards),
        Err(_) => 0,
    }
}

// How often a symbol stands in a recording.
pub fn times_of(symbol: u8, recording: &[u8]) -> usize
    ensures { result ≡ times_of symbol recording.now }
{
    recording.iter().filter(|s| **s == symbol).count()
}
