// A line of a counter's export: the width and the period of a pulse, in decimal, with blanks or a comma between them.
// It assumes nothing of the bytes; a newline is no part of the line.
#![tactic(auto)]

ghost use Rattle.std.specs.Prelude.{◌≡◌, ℕ, true, false, ◌<◌, ◌≤◌, length, slice_index};
ghost use Rattle.pulse_lines.specs.PulseLines.{is_blank, is_digit, opens_heading, end_of, comma_end, separator_end, pulse_with, pulse_line_of, is_heading};

use arguments::decimal_in;

// What a line says: a pulse, nothing at all, or anything else. Three cases, so no Option.
#[derive(Clone, Copy, Debug, PartialEq, Eq)]
pub enum PulseLine {
    Pulse { width: u32, period: u32 },
    Empty,
    Other,
}

// Space, tab and CR.
#[tactic(auto, using(std::proofs::lemmas::Bool::Decides::nat_tests), unfolding(crate::specs::PulseLines::is_blank))]
fn is_blank(byte: u8) -> bool
    ensures { result ≡ is_blank byte }
{
    matches!(byte, b' ' | b'\t' | b'\r')
}

#[tactic(auto, using(std::proofs::lemmas::Bool::Decides::nat_tests), unfolding(crate::specs::PulseLines::is_digit))]
fn is_digit(byte: u8) -> bool
    ensures { result ≡ is_digit byte }
{
    matches!(byte, b'0'..=b'9')
}

// Where the bytes from there on that pass the test end.
fn run_end<F: Fn(u8) -> bool>(line: &[u8], from: usize, passes: F) -> usize
    requires from_in { from ≤ length line.now }
    requires callable { F.IsAlwaysCallable passes }
    ensures within { (from ≤ result) × (result ≤ length line.now) }
    ensures passed { (k : ℕ) → from ≤ k → k < result → F.post passes (slice_index line.now k) true }
    ensures stopped { result < length line.now → F.post passes (slice_index line.now result) false }
{
    for i in from..line.len() {
        if !passes(line[i]) {
            return i;
        }
    }
    line.len()
}

// Where the blanks from there on end.
fn blanks_end(line: &[u8], from: usize) -> usize
    requires { from ≤ length line.now }
    ensures { (result ≡ end_of is_blank line.now from) × (from ≤ result) × (result ≤ length line.now) }
{
    run_end(line, from, is_blank)
}

// Where the digits from there on end.
fn digits_end(line: &[u8], from: usize) -> usize
    requires { from ≤ length line.now }
    ensures { (result ≡ end_of is_digit line.now from) × (from ≤ result) × (result ≤ length line.now) }
{
    run_end(line, from, is_digit)
}

// Behind a comma, if one stands there.
#[tactic(auto, using(std::proofs::lemmas::Bool::Decides::nat_tests), unfolding(crate::specs::PulseLines::comma_end))]
fn comma_end(line: &[u8], from: usize) -> usize
    requires { from ≤ length line.now }
    ensures { (result ≡ comma_end line.now from) × (from ≤ result) × (result ≤ length line.now) }
{
    if from < line.len() && line[from] == b',' {
        from + 1
    } else {
        from
    }
}

// Behind blanks with at most one comma among them.
fn separator_end(line: &[u8], from: usize) -> usize
    requires { from ≤ length line.now }
    ensures { (result ≡ separator_end line.now from) × (from ≤ result) × (result ≤ length line.now) }
{
    let comma = blanks_end(line, from);
    let behind = comma_end(line, comma);
    blanks_end(line, behind)
}

// Numbers of 32 bits.
#[tactic(auto, using(std::proofs::lemmas::Bool::Decides::nat_tests))]
fn pulse_with(width: Option<u64>, period: Option<u64>) -> PulseLine
    ensures { result ≡ pulse_with width period }
{
    let width = width.and_then(|number| u32::try_from(number).ok());
    let period = period.and_then(|number| u32::try_from(number).ok());
    match (width, period) {
        (Some(width), Some(period)) => PulseLine::Pulse { width, period },
        _ => PulseLine::Other,
    }
}

// The pulse of a line.
pub fn pulse_line(line: &[u8]) -> PulseLine
    ensures { result ≡ pulse_line_of line.now }
{
    let width = blanks_end(line, 0);
    if width == line.len() {
        return PulseLine::Empty;
    }
    let width_end = digits_end(line, width);
    let period = separator_end(line, width_end);
    let period_end = digits_end(line, period);
    if blanks_end(line, period_end) == line.len() {
        pulse_with(
            decimal_in(&line[width..width_end]),
            decimal_in(&line[period..period_end]),
        )
    } else {
        PulseLine::Other
    }
}

// A letter, a quotation mark or a number sign.
#[tactic(auto, using(std::proofs::lemmas::Bool::Decides::nat_tests), unfolding(crate::specs::PulseLines::opens_heading))]
fn opens_heading(byte: u8) -> bool
    ensures { result ≡ opens_heading byte }
{
    matches!(byte, b'"' | b'#' | b'A'..=b'Z' | b'a'..=b'z')
}

// A line that says what the columns are. None is the line of a pulse.
pub fn is_heading(line: &[u8]) -> bool
    ensures { result ≡ is_heading line.now }
{
    let first = blanks_end(line, 0);
    first < line.len() && opens_heading(line[first])
}
