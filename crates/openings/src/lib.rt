// Where frames may begin among the symbols of a block, and how many of its symbols stand before the first above 3.
// It assumes nothing of the symbols.
#![tactic(auto)]

ghost use Rattle.std.specs.Prelude.{◌≡◌, true, false, cond, ◌&&◌, ℕ, ◌+◌, ◌≤◌, ◌<◌, eqb, ltb, get_or, length};
ghost use Rattle.timecode.specs.Stream.{lead};
ghost use Rattle.openings.specs.Accepted.{accepted_in};
ghost use Rattle.openings.specs.Openings.{opens_at, CloseOpenings, IsHighest};

use timecode::{Format, MARK, SPOILED};

// So many marks are asked for before a frame: one, in X none.
pub fn marks_before(format: Format) -> usize
    ensures { (result ≡ lead format) × (result ≤ 1) }
{
    if format.letter == b'X' { 0 } else { 1 }
}

// A mark after a mark begins a frame. In X any mark does: there the one so many before it is itself.
fn is_opening(before: u8, symbol: u8) -> bool
    ensures { result ≡ (eqb symbol 2 && eqb before 2) }
{
    symbol == MARK && before == MARK
}

// The lowest of some places at which a frame may begin, or 255. It looks at all of them: a loop without an early return is compiled to look at many at a time.
fn lowest_opening(format: Format, symbols: &[u8], from: usize, count: usize) -> u8
    requires { (1 ≤ from) × (from + count ≤ length symbols.now) × (count ≤ 128) }
    ensures { (j : ℕ) → j < count → j < result → opens_at format symbols.now (from + j) ≡ false }
{
    let marks = marks_before(format);
    let mut lowest = u8::MAX;
    for i in 0..count {
        let at = from + i;
        let opens = is_opening(symbols[at - marks], symbols[at]);
        let place = if opens { i as u8 } else { u8::MAX };
        lowest = lowest.min(place);
    }
    lowest
}

// At most so many places are looked at together.
const MANY_PLACES: usize = 128;

// So few places are faster looked at one by one, as measured.
const FEW_PLACES: usize = 16;

// One by one: the first place at which a frame may begin.
fn near_opening(format: Format, symbols: &[u8], from: usize, to: usize) -> usize
    requires { (1 ≤ from) × (from ≤ to) × (to ≤ length symbols.now) }
    ensures { (from ≤ result) × (result ≤ to) × ((j : ℕ) → from ≤ j → j < result → opens_at format symbols.now j ≡ false) }
{
    let marks = marks_before(format);
    for at in from..to {
        if is_opening(symbols[at - marks], symbols[at]) {
            return at;
        }
    }
    to
}

// Many places are looked at together. By `step_by` Scan took a tenth longer, as measured.
fn far_opening(format: Format, symbols: &[u8], from: usize, to: usize) -> usize
    requires { (1 ≤ from) × (from ≤ to) × (to ≤ length symbols.now) }
    ensures { (from ≤ result) × (result ≤ to) × ((j : ℕ) → from ≤ j → j < result → opens_at format symbols.now j ≡ false) }
{
    let mut at = from;
    while at < to {
        let count = MANY_PLACES.min(to - at);
        let lowest = usize::from(lowest_opening(format, symbols, at, count));
        if lowest < count {
            return at + lowest;
        }
        at += count;
    }
    to
}

// The next place from one index to another at which a frame may begin, or the other.
pub fn next_opening(format: Format, symbols: &[u8], from: usize, to: usize) -> usize
    requires { (1 ≤ from) × (from ≤ to) × (to ≤ length symbols.now) }
    ensures { (from ≤ result) × (result ≤ to) × ((j : ℕ) → from ≤ j → j < result → opens_at format symbols.now j ≡ false) }
{
    if to - from < FEW_PLACES {
        near_opening(format, symbols, from, to)
    } else {
        far_opening(format, symbols, from, to)
    }
}

// The highest of some places at which a frame may begin, counted from 1, or 0: again it looks at all of them.
fn highest_opening(format: Format, symbols: &[u8], from: usize, count: usize) -> u8
    requires { (1 ≤ from) × (from + count ≤ length symbols.now) × (count ≤ 128) }
    ensures { IsHighest (opens_at format symbols.now) from count result }
{
    let marks = marks_before(format);
    let mut highest = 0;
    for i in 0..count {
        let at = from + i;
        let opens = is_opening(symbols[at - marks], symbols[at]);
        let place = if opens { i as u8 + 1 } else { 0 };
        highest = highest.max(place);
    }
    highest
}

// The last of the openings after an index of which each comes fewer than n symbols after the one before, or the index: where a frame begins
// at the index, none is whole before that last opening.
pub fn last_opening(format: Format, symbols: &[u8], n: usize, from: usize, to: usize) -> usize
    requires { (from < to) × (to ≤ length symbols.now) × (1 ≤ n) × (n ≤ 100) }
    ensures { (from ≤ result) × (result < to) × CloseOpenings format n symbols.now from result }
{
    let mut last = from;
    // The next place is the opening that is found, so no `for` counts it.
    while last < to {
        // So many places after the last opening are fewer than n symbols after it.
        let count = (to - last - 1).min(n - 1);
        let highest = usize::from(highest_opening(format, symbols, last + 1, count));
        if highest == 0 {
            return last;
        }
        last += highest;
    }
    last
}

// The greatest of the symbols, again without an early return.
fn greatest(symbols: &[u8]) -> u8
    ensures { (k : ℕ) → k < length symbols.now → get_or symbols.now k 0 ≤ result }
{
    let mut most = 0;
    for symbol in symbols {
        most = most.max(*symbol);
    }
    most
}

fn first_unknown(symbols: &[u8]) -> usize
    ensures { result ≡ accepted_in symbols.now }
{
    for (i, symbol) in symbols.iter().enumerate() {
        if SPOILED < *symbol {
            return i;
        }
    }
    symbols.len()
}

// How many symbols stand before the first above 3: mostly all.
pub fn accepted(symbols: &[u8]) -> usize
    ensures { result ≡ accepted_in symbols.now }
{
    if greatest(symbols) <= SPOILED {
        symbols.len()
    } else {
        first_unknown(symbols)
    }
}
