// Many symbols at once into the register, none of which begins a frame: inside a frame up to 32 at a time, outside one only the newest word changes.
// The symbols are 0 to 3.
#![tactic(auto)]

ghost use Rattle.std.specs.Prelude.{◌≡◌, ◌+◌, ◌-◌, ◌*◌, ◌%◌, ◌≤◌, length};
ghost use Rattle.register.specs.Receiving.{push_of, continued_of};
ghost use Rattle.receive_many.specs.ManySymbols.{slice, push_all, joined_of, join_all, SymbolsBelow};

use register::{Register, continued, push, with_word};

// Four symbols in one byte, the first highest. The product has each of them once in the byte from bit 24 on, and nothing is carried into it.
fn four(first: u8, second: u8, third: u8, fourth: u8) -> u64
    requires { (first ≤ 3) × (second ≤ 3) × (third ≤ 3) × (fourth ≤ 3) }
    ensures { result ≡ first * 64 + second * 16 + third * 4 + fourth }
{
    let apart = u64::from(first)
        + u64::from(second) * 256
        + u64::from(third) * 65_536
        + u64::from(fourth) * 16_777_216;
    apart * 1_074_791_425 / 16_777_216 % 256
}

// 2^56: what a word holds below its oldest four symbols
const OLDEST_FOUR: u64 = 72_057_594_037_927_936;

fn push_four(word: u64, first: u8, second: u8, third: u8, fourth: u8) -> u64
    requires { (first ≤ 3) × (second ≤ 3) × (third ≤ 3) × (fourth ≤ 3) }
    ensures { result ≡ push_of (push_of (push_of (push_of word first) second) third) fourth }
{
    (word % OLDEST_FOUR) * 256 + four(first, second, third, fourth)
}

// A word with symbols from one index to another pushed.
// The fours are counted by index and not cut into chunks, as the contract speaks of indexes.
fn push_all(word: u64, symbols: &[u8], from: usize, to: usize) -> u64
    requires { (from ≤ to) × (to ≤ length symbols.now) × SymbolsBelow symbols.now to }
    ensures { result ≡ push_all word (slice symbols.now from to) }
{
    let mut newest = word;
    let whole = to - (to - from) % 4;
    for i in (from..whole).step_by(4) {
        newest = push_four(
            newest,
            symbols[i],
            symbols[i + 1],
            symbols[i + 2],
            symbols[i + 3],
        );
    }
    for k in whole..to {
        newest = push(newest, symbols[k]);
    }
    newest
}

// The same for any number of symbols: a word has its last 32 alone.
pub fn push_many(word: u64, symbols: &[u8], from: usize, to: usize) -> u64
    requires { (from ≤ to) × (to ≤ length symbols.now) × SymbolsBelow symbols.now to }
    ensures { result ≡ push_all word (slice symbols.now from to) }
{
    if 32 < to - from {
        push_all(word, symbols, to - 32, to)
    } else {
        push_all(word, symbols, from, to)
    }
}

// One or more symbols joined to the frame, so that it has `count`; a word that is full then is copied.
fn joined(register: Register, newest: u64, count: usize) -> Register
    ensures { result ≡ joined_of register newest count }
{
    if count % 32 == 0 {
        with_word(register, newest, count)
    } else {
        continued(register, newest, count)
    }
}

// So many symbols, up to the frame's next multiple of 32.
fn up_to_word(count: usize, left: usize) -> usize
    requires { 1 ≤ left }
    ensures { (1 ≤ result) × (result ≤ left) × (count % 32 + result ≤ 32) }
{
    let room = 32 - count % 32;
    left.min(room)
}

// Inside a frame: its symbols from one index to another.
pub fn receive_inside(register: Register, symbols: &[u8], from: usize, to: usize) -> Register
    requires { (from ≤ to) × (to ≤ length symbols.now) × (register.count + (to - from) ≤ 100) × SymbolsBelow symbols.now to }
    ensures { result ≡ join_all register (slice symbols.now from to) }
{
    let mut current = register;
    let mut i = from;
    // A turn takes as many symbols as the frame's word has room for, so no `for` counts them.
    while i < to {
        let count = current.count;
        let more = up_to_word(count, to - i);
        let stop = i + more;
        let newest = push_all(current.newest, symbols, i, stop);
        current = joined(current, newest, count + more);
        i = stop;
    }
    current
}

// Outside a frame only the newest word changes.
pub fn receive_outside(register: Register, symbols: &[u8], from: usize, to: usize) -> Register
    requires { (from ≤ to) × (to ≤ length symbols.now) × SymbolsBelow symbols.now to }
    ensures { result ≡ continued_of register (push_all register.newest (slice symbols.now from to)) 0 }
{
    let newest = push_many(register.newest, symbols, from, to);
    continued(register, newest, 0)
}
