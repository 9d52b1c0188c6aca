// The frame under way: its symbols so far, two bits each, from where a frame may begin; and how many accepted frames in a row end right before it.
// The newest word takes every symbol and is copied when the frame has 32, 64 and 96 of them, so that no other word is shifted.
#![tactic(auto)]

ghost use Rattle.std.specs.Prelude.{◌≡◌, cond, ◌+◌, ◌%◌, ◌≤◌, length, take, drop};
ghost use Rattle.following.specs.Rows.{opens_frame};
ghost use Rattle.register.specs.Receiving.{push_of, begun_of, continued_of, with_word_of, receive_of, SymbolsPut, frame_of};

use timecode::{Format, MARK};

// How many symbols the frame under way has, or 0 where there is none; the last 32 symbols; the frame's first, second and third 32, or 0;
// how many accepted frames, each next after the one before, end right before the frame, or with it once it is whole.
#[derive(Clone, Copy, PartialEq, Eq)]
pub struct Register {
    pub count: usize,
    pub newest: u64,
    pub word0: u64,
    pub word1: u64,
    pub word2: u64,
    pub row: usize,
}

// 2^62: what a word holds below its oldest symbol
const OLDEST: u64 = 4_611_686_018_427_387_904;

#[tactic(auto, unfolding(crate::specs::Receiving::push_of))]
pub fn push(word: u64, symbol: u8) -> u64
    ensures { result ≡ push_of word symbol }
{
    (word % OLDEST) * 4 + u64::from(symbol % 4)
}

// A mark directly after a mark begins a frame, in X any mark. The letter is asked only where a mark came.
#[tactic(auto, unfolding(following::specs::Rows::opens_frame, following::specs::Rows::leads_frame, timecode::specs::Formats::is_x))]
pub fn opens_frame(format: Format, newest: u64, symbol: u8) -> bool
    ensures { result ≡ opens_frame format (newest % 4) symbol }
{
    symbol == MARK && (format.letter == b'X' || newest % 4 == u64::from(MARK))
}

pub fn begun(newest: u64, count: usize, row: usize) -> Register
    ensures { result ≡ begun_of newest count row }
{
    Register {
        count,
        newest,
        word0: 0,
        word1: 0,
        word2: 0,
        row,
    }
}

pub fn continued(register: Register, newest: u64, count: usize) -> Register
    ensures { result ≡ continued_of register newest count }
{
    Register {
        count,
        newest,
        ..register
    }
}

fn word_after(full: bool, old: u64, newest: u64) -> u64
    ensures { result ≡ cond full newest old }
{
    if full { newest } else { old }
}

pub fn with_word(register: Register, newest: u64, count: usize) -> Register
    ensures { result ≡ with_word_of register newest count }
{
    Register {
        count,
        newest,
        word0: word_after(count == 32, register.word0, newest),
        word1: word_after(count == 64, register.word1, newest),
        word2: word_after(count == 96, register.word2, newest),
        ..register
    }
}

// The row goes on only from a whole frame.
pub fn row_before(whole: bool, row: usize) -> usize
    ensures { result ≡ cond whole row 0 }
{
    if whole { row } else { 0 }
}

// One symbol more: an opening begins a frame; after a whole frame there is none; any other joins the frame under way.
pub fn receive(format: Format, n: usize, register: Register, symbol: u8) -> Register
    requires { n ≤ 100 }
    ensures { result ≡ receive_of format n register symbol }
{
    let newest = push(register.newest, symbol);
    if opens_frame(format, register.newest, symbol) {
        return begun(newest, 1, row_before(register.count == n, register.row));
    }
    if register.count == 0 {
        return continued(register, newest, 0);
    }
    if n <= register.count {
        return begun(newest, 0, 0);
    }
    let count = register.count + 1;
    if count % 32 == 0 {
        return with_word(register, newest, count);
    }
    continued(register, newest, count)
}

// The 32 symbols of a word, oldest first.
fn put_symbols(word: u64, at: usize, bytes: &mut [u8])
    requires { at + 32 ≤ length bytes.old }
    ensures { SymbolsPut word at bytes.old 32 bytes.new }
{
    for j in 0..32 {
        bytes[at + j] = ((word >> (62 - j * 2)) % 4) as u8;
    }
}

// The frame's n symbols, after 32 bytes: its words one after another, then the newest word, which ends the frame whatever n is.
pub fn frame_symbols(register: Register, n: usize) -> [u8; 160]
    requires { n ≤ 100 }
    ensures { take n (drop 32 result) ≡ frame_of register n }
{
    let mut bytes = [0u8; 160];
    put_symbols(register.word0, 32, &mut bytes);
    put_symbols(register.word1, 64, &mut bytes);
    put_symbols(register.word2, 96, &mut bytes);
    put_symbols(register.newest, n, &mut bytes);
    bytes
}
