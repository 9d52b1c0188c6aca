// Frames that are due: one after another, n elements apart, each read by itself; behind a refused one the next may begin earlier.
// It assumes nothing of the recording.
#![tactic(auto)]

ghost use Rattle.std.specs.Prelude.{◌≡◌, List, ℕ, ◌+◌, ◌-◌, ◌≤◌, length, take};
ghost use Rattle.timecode.specs.Formats.{size};
ghost use Rattle.due_frames.specs.Due.{resumed, resume_at, look_at};

use frame::read;
use layout::frame_size;
use scan::scan;
use timecode::{Format, Found, Reading, Refusal, Time};

// What the frame says that is due at a place, or how Read refuses it, and where the next is due.
#[derive(Clone, Copy)]
pub struct Looked {
    pub frame: Result<Time, Refusal>,
    pub next: usize,
}

// How much of the recording Scan looks at behind a refused frame: up to the last place within it a frame has room, as far as the recording goes.
fn reach_end(due: usize, n: usize, end: usize) -> usize
    requires { (due ≤ end) × (1 ≤ n) }
    ensures { (result ≤ end) × ((xs : List ℕ) → length xs ≡ end → take result xs ≡ take (due + n - 1) xs) }
{
    if n <= end - due { due + n - 1 } else { end }
}

// Where Scan found a frame, or where the next is due.
fn resumed(scanned: Result<Option<Found>, Refusal>, due: usize) -> usize
    ensures { result ≡ resumed scanned due }
{
    match scanned {
        Ok(Some(found)) => found.start,
        Ok(None) | Err(_) => due,
    }
}

// Where the next frame is due behind a refused one: where Scan finds one that begins within it, or where it ends.
fn resume_at(format: Format, recording: &[u8], place: usize, n: usize) -> usize
    requires { (n ≡ size format) × (1 ≤ n) × (place + n ≤ length recording.now) }
    ensures { result ≡ resume_at format recording.now place }
{
    let due = place + n;
    let last = reach_end(due, n, recording.len());
    resumed(scan(format, &recording[0..last], place + 1), due)
}

// The frame that is due at a place of the recording, if there is a whole one.
pub fn look_at(format: Format, recording: &[u8], place: usize) -> Option<Looked>
    ensures { result ≡ look_at format recording.now place }
{
    let n = frame_size(format);
    if recording.len() < n || recording.len() - n < place {
        return None;
    }
    let end = place + n;
    let reading = read(format, &recording[place..end]);
    match reading {
        Ok(Reading { time, .. }) => Some(Looked {
            frame: Ok(time),
            next: end,
        }),
        Err(refusal) => Some(Looked {
            frame: Err(refusal),
            next: resume_at(format, recording, place, n),
        }),
    }
}
