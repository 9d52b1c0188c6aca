// What a block of symbols takes and what it answers: types only, no function.
// A block is the list of Feeds of its symbols, up to where it stops: its definitions and theorems stand in specs/.
#![tactic(auto)]

use stream::Reader;
use timecode::Refusal;

// Why a block stopped: it had no more symbols, or before a symbol above 3, or before a report with no room left for it.
#[derive(Clone, Copy, PartialEq, Eq)]
pub enum Stop {
    AllTaken,
    UnknownSymbol,
    NoRoom,
}

// How many symbols were taken, how many reports were put in, and why it stopped.
#[derive(Clone, Copy, PartialEq, Eq)]
pub struct Taken {
    pub symbols: usize,
    pub reports: usize,
    pub stop: Stop,
}

// The reader handed back, with the answer.
#[derive(Clone, Copy, PartialEq, Eq)]
pub struct FedBlock {
    pub reader: Reader,
    pub answer: Result<Taken, Refusal>,
}
