// Clock cycles of the modified Manchester form as a frame of A, B or G; the frame need be none that Read takes.
#![tactic(auto)]

ghost use Rattle.std.specs.Prelude.{◌≡◌, ◌&&◌, ◌*◌, ◌≤◌, length};
ghost use Rattle.cycles.specs.Cycles.{is_proper, first_improper, symbol_in, symbols_in, decode_of, decode_leaves};
ghost use Rattle.cycles.specs.Elements.{leading, all_low, all_proper};

use manchester::{HIGH, LOW, check_frame};
use timecode::{Format, MARK, ONE, Refusal, SPOILED, ZERO};

fn is_proper(cycle: u8) -> bool
    ensures { result ≡ is_proper cycle }
{
    cycle == HIGH || cycle == LOW
}

// Every cycle is high or low. The loop has no way out, so that the compiler takes many cycles at once: `all` would stop at the first.
fn are_proper(cycles: &[u8]) -> bool
    ensures { result ≡ all_proper cycles.now }
{
    let mut proper = true;
    for cycle in cycles {
        proper &= is_proper(*cycle);
    }
    proper
}

// The first cycle that is neither high nor low; the length where there is none.
fn first_improper(cycles: &[u8]) -> usize
    ensures { result ≡ first_improper cycles.now }
{
    cycles
        .iter()
        .position(|cycle| !is_proper(*cycle))
        .unwrap_or(cycles.len())
}

// Counts the high cycles that begin these. By `position` it takes a third longer where an element has 10 cycles, as measured; so does `all` below.
fn leading_highs(cycles: &[u8]) -> usize
    ensures { (result ≡ leading cycles.now) × (result ≤ length cycles.now) }
{
    for i in 0..cycles.len() {
        if cycles[i] != HIGH {
            return i;
        }
    }
    cycles.len()
}

fn are_low(cycles: &[u8]) -> bool
    ensures { result ≡ all_low cycles.now }
{
    for cycle in cycles {
        if *cycle != LOW {
            return false;
        }
    }
    true
}

// The symbol of one element's cycles.
fn symbol_in(count: usize, cycles: &[u8]) -> u8
    requires { (count ≤ 100) × (length cycles.now ≡ count) }
    ensures { result ≡ symbol_in count cycles.now }
{
    let highs = leading_highs(cycles);
    if !are_low(&cycles[highs..]) {
        SPOILED
    } else if highs == count / 5 {
        ZERO
    } else if highs == count / 2 {
        ONE
    } else if highs == 4 * count / 5 {
        MARK
    } else {
        SPOILED
    }
}

fn put_symbols(count: usize, cycles: &[u8], frame: &mut [u8])
    requires { (count ≤ 100) × (length frame.old ≤ 100) × (length cycles.now ≡ length frame.old * count) }
    ensures { frame.new ≡ symbols_in count (length frame.old) cycles.now }
{
    for (i, symbol) in frame.iter_mut().enumerate() {
        let at = i * count;
        *symbol = symbol_in(count, &cycles[at..at + count]);
    }
}

// The symbols of `count` cycles each: every symbol of the lent memory is set or, where it refuses, none.
pub fn decode(format: Format, count: usize, cycles: &[u8], frame: &mut [u8]) -> Result<(), Refusal>
    ensures { (result ≡ decode_of format count cycles.now frame.old) × (frame.new ≡ decode_leaves format count cycles.now frame.old) }
{
    check_frame(format, count, frame.len(), cycles.len())?;
    if are_proper(cycles) {
        put_symbols(count, cycles, frame);
        return Ok(());
    }
    Err(Refusal::UnknownCycle(first_improper(cycles)))
}
