// Damages of a run: an element's number, from 1, and the symbol that is received in its place.
// They come from a text with a line for each, or are scattered over the run by a seed.
#![tactic(auto)]

ghost use Rattle.std.specs.Prelude.{◌≡◌, ◌≤◌, ℕ, List, [], length, take};
ghost use Rattle.characters.specs.ByteSymbols.{symbol_of_byte};

use arguments::decimal_in;
use std::marker::Model;
use timecode::{MARK, ONE, SPOILED, ZERO};

// How many damages a run has at most.
pub const MOST: usize = 16_384;

// 2^33: what a random number is divided by, since its high bits are the better ones.
const HIGH: u64 = 8_589_934_592;

// Numbers and symbols stand in two lists, since a simulation takes them so: two of one length, in which a contract sees what is filled.
#[derive(Drop)]
pub struct Damages {
    numbers: [u64; MOST],
    symbols: [u8; MOST],
    count: usize,
}

impl Model for Damages {
    ghost Value = { List ℕ × List ℕ };

    ghost view = { λ d. (take d.count d.numbers, take d.count d.symbols) };

    ghost invariant = { λ d. d.count ≤ 16384 };
}

impl Damages {
    pub fn none() -> Self
        ensures { result ≡ ([], []) }
    {
        Damages {
            numbers: [0; MOST],
            symbols: [0; MOST],
            count: 0,
        }
    }

    // Nothing where the lists are full.
    fn add(&mut self, number: u64, symbol: u8) -> Option<()> {
        if self.count == MOST {
            return None;
        }
        self.numbers[self.count] = number;
        self.symbols[self.count] = symbol;
        self.count += 1;
        Some(())
    }

    pub fn numbers(&self) -> &[u64]
        ensures { (result.now ≡ self.now.0) × (length result.now ≤ 16384) }
    {
        &self.numbers[..self.count]
    }

    pub fn symbols(&self) -> &[u8]
        ensures { (result.now ≡ self.now.1) × (length result.now ≡ length self.now.0) × (length result.now ≤ 16384) }
    {
        &self.symbols[..self.count]
    }
}

// The symbol of a character of a recording. Any other character gives 4, which is no symbol.
#[tactic(auto, using(std::proofs::lemmas::Bool::Decides::nat_tests), unfolding(characters::specs::ByteSymbols::symbol_of_byte))]
fn symbol_of(byte: u8) -> u8
    ensures { result ≡ symbol_of_byte byte }
{
    match byte {
        b'0' => ZERO,
        b'1' => ONE,
        b'P' => MARK,
        b'-' => SPOILED,
        _ => 4,
    }
}

// A number, a space and a character.
fn damage_in(line: &[u8]) -> Option<(u64, u8)> {
    match line {
        [number @ .., b' ', symbol] => Some((decimal_in(number)?, symbol_of(*symbol))),
        _ => None,
    }
}

// Adds the damages of a text; nothing where a line is malformed or there are too many. The lists are lent, since they are long.
pub fn damages_in(text: &[u8], damages: &mut Damages) -> Option<()> {
    for line in text.split_inclusive(|byte| *byte == b'\n') {
        let (number, symbol) = damage_in(line.strip_suffix(b"\n").unwrap_or(line))?;
        damages.add(number, symbol)?;
    }
    Some(())
}

// Random numbers that follow from a seed.
#[derive(Drop)]
struct Random {
    last: u64,
}

impl Random {
    // The start is not 0, and far from those of the next seeds.
    fn from_seed(seed: u64) -> Self {
        let mut random = Random {
            last: seed % 4_294_967_296 * 2 + 1,
        };
        for _ in 0..64 {
            random.draw();
        }
        random
    }

    fn draw(&mut self) -> u64 {
        self.last ^= self.last << 13;
        self.last ^= self.last >> 7;
        self.last ^= self.last << 17;
        self.last / HIGH
    }
}

// Adds random symbols, each of the four as often, in the place of about one element in `times`; nothing where there are too many, or `times` is 0.
pub fn scattered(elements: u64, times: u64, seed: u64, damages: &mut Damages) -> Option<()> {
    if times == 0 {
        return None;
    }
    let mut random = Random::from_seed(seed);
    for number in 1..=elements {
        if random.draw() % times == 0 {
            let symbol = (random.draw() % 4) as u8;
            damages.add(number, symbol)?;
        }
    }
    Some(())
}
