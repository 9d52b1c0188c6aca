// One listener of a simulation: it hears a frame of the generator, damaged or not, and counts its reports.
// Its reader passes 13 and 26, and all symbols are 0 to 3.
#![tactic(auto)]

ghost use Rattle.std.specs.Prelude.{◌≡◌, true, cond, ◌&&◌, ◌+◌, ◌-◌, ◌≤◌, ◌<◌, eqb, leb, ltb, get_or, length, take};
ghost use Rattle.timecode.specs.Frames.{same_time};
ghost use Rattle.timecode.specs.Stream.{is_setting};
ghost use Rattle.stream.specs.Feeding.{is_valid};
ghost use Rattle.stream.specs.Refinement.{answers, reader_after};
ghost use Rattle.receive_many.specs.ManySymbols.{SymbolsBelow};
ghost use Rattle.listening.specs.Counted.{with_report, count_answer, count_all};
ghost use Rattle.listening.specs.FrameDamages.{PutUpTo};
ghost use Rattle.listening.specs.Frames.{Listens, HearsFrame};

use simulation::Counts;
use stream::{Reader, answer_after};
use stride::advance;
use timecode::{Answer, Time};

// A listener under way: its reader, what it counted, and the index of its next damage in the lent lists.
#[derive(Clone, Copy)]
pub struct Listening {
    pub reader: Reader,
    pub counts: Counts,
    pub next: usize,
}

fn same_time(first: Time, second: Time) -> bool
    ensures { result ≡ same_time first second }
{
    first.year == second.year && first.day == second.day && first.hundredths == second.hundredths
}

fn first_after(first: u64, number: u64) -> u64
    ensures { result ≡ cond (eqb first 0) number first }
{
    if first == 0 { number } else { first }
}

fn wrong_after(wrong: u64, right: bool) -> u64
    requires { wrong < 18446744073709551615 }
    ensures { result ≡ cond right wrong (wrong + 1) }
{
    if right { wrong } else { wrong + 1 }
}

fn with_report(counts: Counts, number: u64, right: bool) -> Counts
    requires { (counts.reports < 18446744073709551615) × (counts.wrong < 18446744073709551615) }
    ensures { result ≡ with_report counts number right }
{
    Counts {
        first: first_after(counts.first, number),
        reports: counts.reports + 1,
        wrong: wrong_after(counts.wrong, right),
    }
}

// The answer to the element of that number. A frame of the generator ends with the element `end`, and `sent` is its time.
fn count_answer(counts: Counts, answer: Answer, number: u64, end: u64, sent: Time) -> Counts
    requires { (counts.reports < 18446744073709551615) × (counts.wrong < 18446744073709551615) }
    ensures { result ≡ count_answer end sent counts number answer }
{
    match answer {
        Answer::Quiet => counts,
        Answer::Report { time, control: _ } => {
            if number == end {
                return with_report(counts, number, same_time(time, sent));
            }
            with_report(counts, number, false)
        }
        Answer::Refused(_) => counts,
    }
}

// Hears the first n symbols, the elements of one frame as they came; `past` elements came before.
fn hear(
    reader: Reader,
    counts: Counts,
    next: usize,
    symbols: &[u8],
    n: usize,
    past: u64,
    sent: Time,
) -> Listening
    requires { (is_valid reader ≡ true) × (is_setting reader.setting ≡ true) × (n ≤ length symbols.now) × (n ≤ 100) × SymbolsBelow symbols.now n × (past ≤ 1000000000000) × (counts.reports ≤ past) × (counts.wrong ≤ past) }
    ensures { (result.reader ≡ reader_after reader (take n symbols.now)) × (result.counts ≡ count_all (past + n) sent counts past (answers reader (take n symbols.now))) × (result.next ≡ next) }
{
    let end = past + n as u64;
    let mut current = reader;
    let mut counted = counts;
    let mut i = 0;
    // No `for`: how many symbols a turn takes, the stride says.
    while i < n {
        let stride = advance(current, symbols, i, n);
        let following = stride.reader;
        i += stride.taken;
        let answer = answer_after(following);
        counted = count_answer(counted, answer, past + i as u64, end, sent);
        current = following;
    }
    Listening {
        reader: current,
        counts: counted,
        next,
    }
}

// Puts the damages from one index on into the first n bytes, which are the elements of a frame; `past` elements came before it. Gives the index of the first that lies behind the frame.
fn put_damages(
    frame: &mut [u8],
    n: usize,
    past: u64,
    numbers: &[u64],
    symbols: &[u8],
    from: usize,
    to: usize,
) -> usize
    requires { (n ≤ 100) × (length frame.old ≡ 100) × (past ≤ 1000000000000) × (from ≤ to) × (to ≤ length numbers.now) × (to ≤ length symbols.now) }
    ensures { (length frame.new ≡ 100) × PutUpTo past n numbers.now symbols.now from to frame.old result frame.new × (result < to → past + n < get_or numbers.now result 0) }
{
    let end = past + n as u64;
    for at in from..to {
        let number = numbers[at];
        if end < number {
            return at;
        }
        if number <= past {
            continue;
        }
        frame[(number - past - 1) as usize] = symbols[at];
    }
    to
}

// The listener hears a frame with the damages put in that lie in it.
fn listen_damaged(
    listening: Listening,
    frame: [u8; 100],
    n: usize,
    past: u64,
    sent: Time,
    numbers: &[u64],
    symbols: &[u8],
    to: usize,
) -> Listening
    requires { Listens listening frame n past numbers.now symbols.now to }
    ensures { HearsFrame listening frame n past sent numbers.now symbols.now to result }
{
    let mut heard = frame;
    let next = put_damages(&mut heard, n, past, numbers, symbols, listening.next, to);
    hear(
        listening.reader,
        listening.counts,
        next,
        &heard,
        n,
        past,
        sent,
    )
}

// The next damage does not lie behind the element `end`.
fn is_damaged(numbers: &[u64], next: usize, to: usize, end: u64) -> bool
    requires { to ≤ length numbers.now }
    ensures { result ≡ (ltb next to && leb (get_or numbers.now next 0) end) }
{
    next < to && numbers[next] <= end
}

// One listener hears one frame. Where none of its damages lies in the frame, that costs one comparison.
pub fn listen(
    listening: Listening,
    frame: [u8; 100],
    n: usize,
    past: u64,
    sent: Time,
    numbers: &[u64],
    symbols: &[u8],
    to: usize,
) -> Listening
    requires { Listens listening frame n past numbers.now symbols.now to }
    ensures { HearsFrame listening frame n past sent numbers.now symbols.now to result }
{
    let next = listening.next;
    if is_damaged(numbers, next, to, past + n as u64) {
        return listen_damaged(listening, frame, n, past, sent, numbers, symbols, to);
    }
    hear(
        listening.reader,
        listening.counts,
        next,
        &frame,
        n,
        past,
        sent,
    )
}
