// The characters of a recording, and the symbols that they stand for.
#![tactic(auto)]

ghost use Rattle.std.specs.Prelude.{◌≡◌, ◌≤◌, length, take};
ghost use Rattle.characters.specs.ByteSymbols.{is_skipped, symbol_of_byte, feeds_of};
ghost use Rattle.characters.specs.Decoding.{symbol_or_skipped, symbols_in, kept_of, EachPut};

use timecode::{MARK, SPOILED};

// what a byte that is skipped is decoded to, before it is left out
const SKIPPED: u8 = 5;

#[tactic(auto, unfolding(crate::specs::ByteSymbols::is_skipped))]
fn is_skipped(byte: u8) -> bool
    ensures { result ≡ is_skipped byte }
{
    byte == b' ' || byte == b'\r' || byte == b'\n'
}

// A character that stands for no symbol gives 4, which Feed refuses. The digits are most of a recording, so they come first.
fn symbol_of_byte(byte: u8) -> u8
    ensures { result ≡ symbol_of_byte byte }
{
    if byte / 2 == b'0' / 2 {
        byte % 2
    } else if byte == b'P' {
        MARK
    } else if byte == b'-' {
        SPOILED
    } else {
        4
    }
}

// 5, which stands for no symbol, where the byte is skipped.
#[tactic(auto, unfolding(crate::specs::Decoding::symbol_or_skipped))]
fn symbol_or_skipped(byte: u8) -> u8
    ensures { result ≡ symbol_or_skipped byte }
{
    if is_skipped(byte) {
        SKIPPED
    } else {
        symbol_of_byte(byte)
    }
}

// Puts the symbol of each byte, or 5, at the byte's index; the greatest of them tells whether a byte is skipped. A loop without an early return
// and with one place for each byte is compiled to decode many at a time.
fn put_each(bytes: &[u8], symbols: &mut [u8]) -> u8
    requires { length bytes.now ≤ length symbols.old }
    ensures { EachPut bytes.now (length symbols.old) (length bytes.now) result symbols.new }
{
    let mut most = 0;
    for (i, byte) in bytes.iter().enumerate() {
        let symbol = symbol_or_skipped(*byte);
        symbols[i] = symbol;
        most = most.max(symbol);
    }
    most
}

// How many symbols it is: none, if it stands for a byte that is skipped.
#[tactic(auto, unfolding(crate::specs::Decoding::symbols_in))]
fn symbols_in(symbol: u8) -> usize
    ensures { result ≡ symbols_in symbol }
{
    if symbol == SKIPPED { 0 } else { 1 }
}

// The first n without those of skipped bytes, in the first places.
fn close_up(symbols: &mut [u8], n: usize) -> usize
    requires { n ≤ length symbols.old }
    ensures { (result ≡ length (kept_of (take n symbols.old))) × (take result symbols.new ≡ kept_of (take n symbols.old)) × (length symbols.new ≡ length symbols.old) }
{
    let mut count = 0;
    for i in 0..n {
        let symbol = symbols[i];
        symbols[count] = symbol;
        count += symbols_in(symbol);
    }
    count
}

// The symbols that the bytes stand for, in the first places of the lent memory.
pub fn decode(bytes: &[u8], symbols: &mut [u8]) -> usize
    requires { length bytes.now ≤ length symbols.old }
    ensures { (result ≡ length (feeds_of bytes.now)) × (take result symbols.new ≡ feeds_of bytes.now) × (length symbols.new ≡ length symbols.old) }
{
    let most = put_each(bytes, symbols);
    if most < SKIPPED {
        bytes.len()
    } else {
        close_up(symbols, bytes.len())
    }
}
