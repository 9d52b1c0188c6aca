// A frame of A, B or G in the modified Manchester form: each symbol as its clock cycles, the high ones first.
// Elements are copied in whole blocks of 16 cycles: those of 10 cycles from a block each, longer ones as parts of one run of levels.
#![tactic(auto)]

ghost use Rattle.std.specs.Prelude.{◌≡◌, true, ◌&&◌, ◌++◌, ◌+◌, ◌*◌, ◌-◌, ◌%◌, ◌<◌, ◌≤◌, leb, length, take, replicate};
ghost use Rattle.cycles.specs.Cycles.{highs, cycles_of, unspoiled, encode_of, encode_leaves};
ghost use Rattle.manchester_encode.specs.Encoding.{Levels, Starts, Short, Copied, runs};

use manchester::{HIGH, LOW, check_frame};
use timecode::{Format, MARK, ONE, Refusal, ZERO};

// How many high cycles begin the element of a symbol: 2, 5 or 8 tenths of it.
#[tactic(auto, unfolding(cycles::specs::Cycles::highs))]
fn highs_of(count: usize, symbol: u8) -> usize
    requires { count ≤ 100 }
    ensures { (result ≡ highs count symbol) × (result ≤ 80) }
{
    match symbol {
        ZERO => count / 5,
        ONE => count / 2,
        _ => 4 * count / 5,
    }
}

fn put_run(cycles: &mut [u8], from: usize, to: usize, level: u8)
    requires { (from ≤ to) × (to ≤ length cycles.old) }
    ensures { (length cycles.new ≡ length cycles.old) × (take to cycles.new ≡ take from cycles.old ++ replicate (to - from) level) }
{
    cycles[from..to].fill(level);
}

// So many cycles, from one place to another.
fn copy_cycles(levels: &[u8], from: usize, cycles: &mut [u8], at: usize, count: usize)
    requires { (from + count ≤ length levels.now) × (at + count ≤ length cycles.old) }
    ensures { Copied levels.now from cycles.old cycles.new at count }
{
    for i in 0..count {
        cycles[at + i] = levels[from + i];
    }
}

// By way of a block of its own, so that the compiler reads all 16 cycles at once and then writes them at once.
fn copy_block(levels: &[u8], from: usize, cycles: &mut [u8], at: usize)
    requires { (from + 16 ≤ length levels.now) × (at + 16 ≤ length cycles.old) }
    ensures { Copied levels.now from cycles.old cycles.new at 16 }
{
    let mut block = [LOW; 16];
    copy_cycles(levels, from, &mut block, 0, 16);
    copy_cycles(&block, 0, cycles, at, 16);
}

fn copy_blocks<const BLOCKS: usize>(levels: &[u8], from: usize, cycles: &mut [u8], at: usize)
    requires { (BLOCKS ≤ 7) × (from + 16 * BLOCKS ≤ length levels.now) × (at + 16 * BLOCKS ≤ length cycles.old) }
    ensures { Copied levels.now from cycles.old cycles.new at (16 * BLOCKS) }
{
    for i in 0..BLOCKS {
        copy_block(levels, from + 16 * i, cycles, at + 16 * i);
    }
}

// The frame, each element in so many whole blocks: what they set behind it, the next element sets again. The last one has no room for that.
fn copy_elements<const BLOCKS: usize>(
    levels: &[u8],
    starts: &[usize],
    count: usize,
    frame: &[u8],
    cycles: &mut [u8],
)
    requires { (BLOCKS ≤ 7) × (8 * BLOCKS ≤ count) × (count ≤ 16 * BLOCKS) × (count ≤ 100) × Levels levels.now × Starts count starts.now × (unspoiled frame.now ≡ true) × (0 < length frame.now) × (length cycles.old ≡ length frame.now * count) }
    ensures { cycles.new ≡ cycles_of count frame.now }
{
    let last = frame.len() - 1;
    for i in 0..last {
        copy_blocks::<BLOCKS>(levels, starts[frame[i] as usize], cycles, i * count);
    }
    copy_cycles(
        levels,
        starts[frame[last] as usize],
        cycles,
        last * count,
        count,
    );
}

// A loop of its own for each number of blocks, which the compiler then writes out.
fn copy_frame(levels: &[u8], starts: &[usize], count: usize, frame: &[u8], cycles: &mut [u8])
    requires { (16 < count) × (count ≤ 100) × Levels levels.now × Starts count starts.now × (unspoiled frame.now ≡ true) × (0 < length frame.now) × (length cycles.old ≡ length frame.now * count) }
    ensures { cycles.new ≡ cycles_of count frame.now }
{
    let blocks = (count + 15) / 16;
    match blocks {
        2 => copy_elements::<2>(levels, starts, count, frame, cycles),
        3 => copy_elements::<3>(levels, starts, count, frame, cycles),
        4 => copy_elements::<4>(levels, starts, count, frame, cycles),
        5 => copy_elements::<5>(levels, starts, count, frame, cycles),
        6 => copy_elements::<6>(levels, starts, count, frame, cycles),
        _ => copy_elements::<7>(levels, starts, count, frame, cycles),
    }
}

// 80 high levels and 112 low ones: an element of 100 cycles has at most 80 of either, and is copied in 7 blocks.
fn put_long_cycles(count: usize, frame: &[u8], cycles: &mut [u8])
    requires { (16 < count) × (count ≤ 100) × (unspoiled frame.now ≡ true) × (0 < length frame.now) × (length cycles.old ≡ length frame.now * count) }
    ensures { cycles.new ≡ cycles_of count frame.now }
{
    let mut levels = [HIGH; 192];
    put_run(&mut levels, 80, 192, LOW);
    let starts = [
        80 - highs_of(count, ZERO),
        80 - highs_of(count, ONE),
        80 - highs_of(count, MARK),
    ];
    copy_frame(&levels, &starts, count, frame, cycles);
}

// The element of 10 cycles, and low ones up to a block.
fn put_short_element(elements: &mut [u8], at: usize, symbol: u8)
    requires { at + 16 ≤ length elements.old }
    ensures { (length elements.new ≡ length elements.old) × (take (at + 16) elements.new ≡ take at elements.old ++ runs (highs 10 symbol) (16 - highs 10 symbol)) }
{
    let middle = at + highs_of(10, symbol);
    put_run(elements, at, middle, HIGH);
    put_run(elements, middle, at + 16, LOW);
}

// As copy_elements, with one block for each element: the symbol alone says which, so that nothing else is read.
fn copy_short_elements(elements: &[u8], frame: &[u8], cycles: &mut [u8])
    requires { Short elements.now × (unspoiled frame.now ≡ true) × (0 < length frame.now) × (length cycles.old ≡ length frame.now * 10) }
    ensures { cycles.new ≡ cycles_of 10 frame.now }
{
    let last = frame.len() - 1;
    for i in 0..last {
        copy_block(elements, 16 * frame[i] as usize, cycles, i * 10);
    }
    copy_cycles(elements, 16 * frame[last] as usize, cycles, last * 10, 10);
}

fn put_short_cycles(frame: &[u8], cycles: &mut [u8])
    requires { (unspoiled frame.now ≡ true) × (0 < length frame.now) × (length cycles.old ≡ length frame.now * 10) }
    ensures { cycles.new ≡ cycles_of 10 frame.now }
{
    let mut elements = [LOW; 48];
    put_short_element(&mut elements, 0, ZERO);
    put_short_element(&mut elements, 16, ONE);
    put_short_element(&mut elements, 32, MARK);
    copy_short_elements(&elements, frame, cycles);
}

fn put_cycles(count: usize, frame: &[u8], cycles: &mut [u8])
    requires { (10 ≤ count) × (count ≤ 100) × (count % 10 ≡ 0) × (unspoiled frame.now ≡ true) × (0 < length frame.now) × (length cycles.old ≡ length frame.now * count) }
    ensures { cycles.new ≡ cycles_of count frame.now }
{
    if count == 10 {
        put_short_cycles(frame, cycles);
    } else {
        put_long_cycles(count, frame, cycles);
    }
}

// By the largest symbol, which the processor finds for 16 at once.
fn is_unspoiled(frame: &[u8]) -> bool
    ensures { result ≡ unspoiled frame.now }
{
    let mut largest = ZERO;
    for symbol in frame {
        largest = largest.max(*symbol);
    }
    largest <= MARK
}

// The frame as `count` cycles for each symbol: every cycle of the lent memory is set or, where it refuses, none.
pub fn encode(format: Format, count: usize, frame: &[u8], cycles: &mut [u8]) -> Result<(), Refusal>
    ensures { (result ≡ encode_of format count frame.now cycles.old) × (cycles.new ≡ encode_leaves format count frame.now cycles.old) }
{
    check_frame(format, count, frame.len(), cycles.len())?;
    if is_unspoiled(frame) {
        put_cycles(count, frame, cycles);
        return Ok(());
    }
    Err(Refusal::UnknownSymbol)
}
