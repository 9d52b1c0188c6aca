// The lent lists of a simulation's listeners: whether they are such lists, and whether settings and damages are in order.
#![tactic(auto)]

ghost use Rattle.std.specs.Prelude.{◌≡◌, true, ◌-◌, ◌≤◌, get_or, length};
ghost use Rattle.timecode.specs.Formats.{is_symbol};
ghost use Rattle.timecode.specs.Stream.{is_setting};
ghost use Rattle.simulation.specs.Lent.{start_of, ends_fit};
ghost use Rattle.listeners.specs.Indexes.{every_index, rises_at, damages_fit};

use stream::is_setting;
use timecode::SPOILED;

// Number 26: each setting is 2 to 5.
pub fn settings_fit(settings: &[u8]) -> bool
    ensures { result ≡ every_index (λ j. is_setting (get_or settings.now j 0)) (length settings.now - 0) 0 }
{
    for setting in settings {
        if !is_setting(*setting) {
            return false;
        }
    }
    true
}

// Number 3: no end falls below the one before, and the last is that of the damages.
pub fn ends_fit(ends: &[usize], total: usize) -> bool
    ensures { result ≡ ends_fit 0 ends.now total }
{
    let mut from = 0;
    for end in ends {
        if *end < from {
            return false;
        }
        from = *end;
    }
    from == total
}

#[tactic(auto, unfolding(crate::specs::Indexes::rises_at))]
fn rises_at(numbers: &[u64], i: usize, to: usize) -> bool
    requires { (i ≤ to) × (to ≤ length numbers.now) }
    ensures { result ≡ rises_at numbers.now to i }
{
    to - i < 2 || numbers[i] < numbers[i + 1]
}

// Number 27: each number is above the one before.
fn are_rising(numbers: &[u64], from: usize, to: usize) -> bool
    requires { (from ≤ to) × (to ≤ length numbers.now) }
    ensures { result ≡ every_index (rises_at numbers.now to) (to - from) from }
{
    for i in from..to {
        if !rises_at(numbers, i, to) {
            return false;
        }
    }
    true
}

// Number 27: each symbol is 0 to 3.
fn have_symbols(symbols: &[u8], from: usize, to: usize) -> bool
    requires { (from ≤ to) × (to ≤ length symbols.now) }
    ensures { result ≡ every_index (λ i. is_symbol (get_or symbols.now i 0)) (to - from) from }
{
    for i in from..to {
        if SPOILED < symbols[i] {
            return false;
        }
    }
    true
}

#[tactic(auto, unfolding(crate::specs::Indexes::damages_fit))]
fn damages_fit(numbers: &[u64], symbols: &[u8], from: usize, to: usize) -> bool
    requires { (from ≤ to) × (to ≤ length numbers.now) × (length symbols.now ≡ length numbers.now) }
    ensures { result ≡ damages_fit numbers.now symbols.now from to }
{
    are_rising(numbers, from, to) && have_symbols(symbols, from, to)
}

// Number 27 but for a ninth listener.
pub fn listeners_fit(ends: &[usize], numbers: &[u64], symbols: &[u8]) -> bool
    requires { (length symbols.now ≡ length numbers.now) × (ends_fit 0 ends.now (length numbers.now) ≡ true) }
    ensures { result ≡ every_index (λ j. damages_fit numbers.now symbols.now (start_of ends.now j) (get_or ends.now j 0)) (length ends.now - 0) 0 }
{
    let mut from = 0;
    for end in ends {
        if !damages_fit(numbers, symbols, from, *end) {
            return false;
        }
        from = *end;
    }
    true
}
