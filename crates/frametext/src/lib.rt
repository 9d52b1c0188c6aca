// A frame as a line of text in the characters that timeread reads, and the first line of a recording.
// The line and the place in it stay two parameters: the one function that takes both goes between the functions of lines, whose promises name both.
#![tactic(auto)]

ghost use Rattle.std.specs.Prelude.{◌≡◌, ◌++◌, ◌+◌, ◌≤◌, length, take};
ghost use Rattle.timecode.specs.Formats.{size};
ghost use Rattle.timecode.specs.Frames.{written};
ghost use Rattle.timecode.specs.Answers.{done};
ghost use Rattle.frametext.specs.Characters.{character_of, opens_group, element_text, frame_text, frame_line, write_answer, lined_of, Stands, first_line};

use frame::write;
use layout::frame_size;
use lines::put;
use timecode::{Format, MARK, ONE, Refusal, Time, ZERO};

// No other symbols than 0 to 3 are written.
#[tactic(auto, unfolding(crate::specs::Characters::character_of))]
pub fn character_of(symbol: u8) -> u8
    ensures { result ≡ character_of symbol }
{
    match symbol {
        ZERO => b'0',
        ONE => b'1',
        MARK => b'P',
        _ => b'-',
    }
}

#[tactic(auto, unfolding(crate::specs::Characters::opens_group))]
fn opens_group(index: usize) -> bool
    ensures { result ≡ opens_group index }
{
    0 < index && index % 10 == 0
}

fn put_element(line: &mut [u8], at: usize, index: usize, symbol: u8) -> usize
    requires { at + 2 ≤ length line.old }
    ensures { (result ≤ at + 2) × (length line.new ≡ length line.old) × (take result line.new ≡ take at line.old ++ element_text index symbol) }
{
    let character = character_of(symbol);
    if opens_group(index) {
        let next = put(line, at, b' ');
        put(line, next, character)
    } else {
        put(line, at, character)
    }
}

// A frame of 100 elements takes 110 bytes of the line.
fn put_frame(line: &mut [u8], frame: &[u8]) -> usize
    requires { (length line.old ≡ 256) × (length frame.now ≤ 100) }
    ensures { (result ≤ 256) × (length line.new ≡ 256) × (take result line.new ≡ frame_text 0 frame.now) }
{
    let mut end = 0;
    for (i, symbol) in frame.iter().enumerate() {
        end = put_element(line, end, i, *symbol);
    }
    put(line, end, b'\n')
}

// Writes a frame into the first n bytes lent.
fn write_part(
    format: Format,
    time: Time,
    control: u64,
    lent: &mut [u8],
    n: usize,
) -> Result<(), Refusal>
    requires { (n ≡ size format) × (n ≤ 100) × (length lent.old ≡ 100) }
    ensures { (result ≡ write_answer format time control) × (length lent.new ≡ 100) × (result ≡ done → take n lent.new ≡ written format time control) }
{
    write(format, time, control, &mut lent[..n])
}

fn put_line(format: Format, time: Time, control: u64, line: &mut [u8]) -> Result<usize, Refusal>
    requires { length line.old ≡ 256 }
    ensures { (result ≡ lined_of format time control) × (length line.new ≡ 256) × Stands result (frame_line format time control) line.new line.old }
{
    let n = frame_size(format);
    let mut frame = [0u8; 100];
    write_part(format, time, control, &mut frame, n)?;
    Ok(put_frame(line, &frame[..n]))
}

// Puts the line of the frame that Write writes: how many bytes it has. It refuses as Write does.
pub fn frame_line(
    format: Format,
    time: Time,
    control: u64,
    line: &mut [u8; 256],
) -> Result<usize, Refusal>
    ensures { (result ≡ lined_of format time control) × (length line.new ≡ 256) × Stands result (frame_line format time control) line.new line.old }
{
    put_line(format, time, control, line)
}

// The first line of a recording.
pub fn first_line(format: Format) -> [u8; 3]
    ensures { result ≡ first_line format }
{
    [format.letter, 48 + format.expression % 10, b'\n']
}
