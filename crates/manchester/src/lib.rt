// What encoding and decoding of the modified Manchester form ask alike: the format, the clock cycles of an element, and both lengths.
#![tactic(auto)]

ghost use Rattle.std.specs.Prelude.{◌≡◌};
ghost use Rattle.timecode.specs.Answers.{done};
ghost use Rattle.cycles.specs.Cycles.{is_modulated, is_cycle_count, check_frame};

use layout::{frame_size, is_known};
use timecode::{Format, Refusal};

// A cycle's two half levels in a byte, 01 and 10.
pub const HIGH: u8 = 1;

pub const LOW: u8 = 2;

const FEWEST_CYCLES: usize = 10;

const MOST_CYCLES: usize = 100;

#[tactic(auto, unfolding(cycles::specs::Cycles::is_modulated))]
fn is_modulated(format: Format) -> bool
    ensures { result ≡ is_modulated format }
{
    is_known(format) && matches!(format.letter, b'A' | b'B' | b'G')
}

#[tactic(auto, unfolding(cycles::specs::Cycles::is_cycle_count))]
fn is_cycle_count(count: usize) -> bool
    ensures { result ≡ is_cycle_count count }
{
    FEWEST_CYCLES <= count && count <= MOST_CYCLES && count % 10 == 0
}

// The checks before the symbols or the cycles themselves: `count` cycles an element, a frame of so many symbols and so many cycles.
pub fn check_frame(
    format: Format,
    count: usize,
    symbols: usize,
    cycles: usize,
) -> Result<(), Refusal>
    ensures { result ≡ check_frame format count symbols cycles done }
{
    if !is_modulated(format) {
        return Err(Refusal::UnknownFormat);
    }
    if !is_cycle_count(count) {
        return Err(Refusal::InvalidCycleCount);
    }
    let n = frame_size(format);
    if symbols == n {
        if cycles == n * count {
            return Ok(());
        }
    }
    Err(Refusal::WrongLength)
}
