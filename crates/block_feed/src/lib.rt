// Whole blocks of symbols by value: the reader's words are fed, and the reader is taken out of them again.
#![tactic(auto)]

ghost use Rattle.std.specs.Prelude.{◌≡◌};
ghost use Rattle.block.specs.Blocks.{lists, block_for, feed_block_of, lists_left};

use block::FedBlock;
use reader_words::{reader_in, words_for};
use stream::Reader;
use word_block::feed_block_in_words;

pub fn feed_block(
    reader: Reader,
    symbols: &[u8],
    indexes: &mut [usize],
    years: &mut [u8],
    days: &mut [u16],
    hundredths: &mut [u32],
    controls: &mut [u64],
) -> FedBlock
    ensures value { result ≡ feed_block_of reader symbols.now (lists indexes.old years.old days.old hundredths.old controls.old) }
    ensures controls_after { lists indexes.new years.new days.new hundredths.new controls.new ≡ lists_left (block_for reader symbols.now (lists indexes.old years.old days.old hundredths.old controls.old)) (lists indexes.old years.old days.old hundredths.old controls.old) }
{
    let mut words = words_for(reader);
    let answer = feed_block_in_words(
        &mut words, symbols, indexes, years, days, hundredths, controls,
    );
    FedBlock {
        reader: reader_in(words),
        answer: answer,
    }
}
