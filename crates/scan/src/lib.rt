// Scan: the lowest place of a recording where a frame begins after a mark, in X after anything.
#![tactic(auto)]

ghost use Rattle.std.specs.Prelude.{◌≡◌, true, cond, ℕ, ◌+◌, ◌≤◌, ◌<◌, leb, length, take, drop};
ghost use Rattle.timecode.specs.Calls.{scan_of};
ghost use Rattle.timecode.specs.Formats.{size};
ghost use Rattle.timecode.specs.Stream.{lead};
ghost use Rattle.openings.specs.Openings.{marks_meet};
ghost use Rattle.scan.specs.Places.{lowest_from};
ghost use Rattle.scan.specs.Spoiled.{NoneSpoiled, never_spoiled};

use frame::read;
use layout::{frame_size, is_known};
use openings::{marks_before, next_opening};
use timecode::{Format, Found, MARK, Reading, Refusal};

// At least so many, so that there is room for the marks before it, and at least the start.
fn first_place(marks: usize, start: usize) -> usize
    ensures { (result ≡ cond (leb marks start) start marks) × (marks ≤ result) }
{
    marks.max(start)
}

// A mark stands at the place, and so many before it: in X that is the place itself. Every frame begins with a mark, so other places need no reading.
fn marks_meet(marks: usize, recording: &[u8], place: usize) -> bool
    requires { (marks ≤ place) × (place < length recording.now) }
    ensures { result ≡ marks_meet marks recording.now place }
{
    recording[place] == MARK && recording[place - marks] == MARK
}

// No element is spoiled. It looks at all of them: a loop without an early return is compiled to look at many at a time.
fn none_spoiled(part: &[u8]) -> bool
    ensures { NoneSpoiled part.now → result ≡ true }
{
    let mut most = 0;
    for element in part {
        most = most.max(*element);
    }
    most <= MARK
}

// So many elements from a frame's first on are never spoiled: all, in X those before the four missing pulses.
fn never_spoiled(format: Format, n: usize) -> usize
    requires { n ≡ size format }
    ensures { (result ≡ never_spoiled format) × (result ≤ n) }
{
    if format.letter == b'X' { 21 } else { n }
}

// Marks meet at the place, and none of so many elements from it on is spoiled. Where one is, Read would refuse the frame, but not as fast.
fn may_begin(marks: usize, whole: usize, recording: &[u8], place: usize) -> bool
    requires { (marks ≤ place) × (place < length recording.now) × (place + whole ≤ length recording.now) }
    ensures { (result ≡ true → marks_meet marks recording.now place ≡ true) × (marks_meet marks recording.now place ≡ true → NoneSpoiled (take whole (drop place recording.now)) → result ≡ true) }
{
    marks_meet(marks, recording, place) && none_spoiled(&recording[place..place + whole])
}

// The lowest place from the first to the last at which a frame fits. The next one to look at is looked for at many at once.
fn lowest(format: Format, recording: &[u8], first: usize) -> Result<Option<Found>, Refusal>
    requires { lead format ≤ first }
    ensures { result ≡ lowest_from format recording.now first }
{
    let n = frame_size(format);
    if recording.len() < n {
        return Ok(None);
    }
    let marks = marks_before(format);
    let whole = never_spoiled(format, n);
    let last = recording.len() - n;
    let mut place = first;
    // The next place is the one that `next_opening` finds, so no `for` counts it.
    while place <= last {
        if may_begin(marks, whole, recording, place) {
            let end = place + n;
            let part = &recording[place..end];
            let Ok(reading) = read(format, part) else {
                place = next_opening(format, recording, place + 1, last + 1);
                continue;
            };
            return Ok(Some(Found {
                start: place,
                reading,
            }));
        }
        place = next_opening(format, recording, place + 1, last + 1);
    }
    Ok(None)
}

// Where, from the start on, the first frame begins that stands after a mark, in X after anything, and what it says.
pub fn scan(format: Format, recording: &[u8], start: usize) -> Result<Option<Found>, Refusal>
    ensures { result ≡ scan_of format recording.now start }
{
    if is_known(format) {
        if start <= recording.len() {
            return lowest(format, recording, first_place(marks_before(format), start));
        }
        return Err(Refusal::StartPastEnd);
    }
    Err(Refusal::UnknownFormat)
}
