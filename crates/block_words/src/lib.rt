// A block's answer as C's struct, by value.
// The definitions, each field against the answer's result, and the words after a block stand in specs/.
#![tactic(auto)]

ghost use Rattle.std.specs.Prelude.{◌≡◌};
ghost use Rattle.block.specs.Blocks.{stop_number};
ghost use Rattle.block_words.specs.BlockWords.{block_result_of};

use block::{Stop, Taken};
use refusals::number_of;
use timecode::Refusal;

#[repr(C)]
#[derive(Clone, Copy, PartialEq, Eq, Default)]
pub struct BlockResult {
    pub number: u8,
    pub stop: u8,
    pub taken: usize,
    pub reports: usize,
}

// 0 where all symbols were taken, 1 before a symbol above 3, 2 before a report with no room left.
fn stop_number(stop: Stop) -> u8
    ensures { result ≡ stop_number stop }
{
    stop as u8
}

impl From<Result<Taken, Refusal>> for BlockResult {
    ghost from_gives = { λ answer r. r ≡ block_result_of answer };

    fn from(answer: Result<Taken, Refusal>) -> BlockResult {
        match answer {
            Ok(taken) => BlockResult {
                number: 0,
                stop: stop_number(taken.stop),
                taken: taken.symbols,
                reports: taken.reports,
            },
            Err(refusal) => BlockResult {
                number: number_of(refusal),
                ..BlockResult::default()
            },
        }
    }
}
