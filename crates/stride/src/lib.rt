// A stride of a block: its first symbol, then symbols up to the next opening or to the frame's end; openings that come before a frame is whole go together.
// Only its last symbol can report. A frame that is whole in the stride is read in the block itself.
#![tactic(auto)]

ghost use Rattle.std.specs.Prelude.{◌≡◌, true, ◌+◌, ◌-◌, ◌%◌, ◌≤◌, ◌<◌, get_or, length};
ghost use Rattle.timecode.specs.Formats.{size};
ghost use Rattle.timecode.specs.Stream.{is_setting};
ghost use Rattle.register.specs.Receiving.{frame_of};
ghost use Rattle.receive_many.specs.ManySymbols.{slice, SymbolsBelow};
ghost use Rattle.stream.specs.Feeding.{is_valid, when_whole};
ghost use Rattle.stride.specs.Strides.{run_of, Runs, Strides};

use frame::read;
use layout::frame_size;
use openings::{last_opening, next_opening};
use receive_many::{push_many, receive_inside, receive_outside};
use register::{Register, begun, receive};
use stream::{Reader, reader_with_reading, when_whole, with_register};
use timecode::Format;

// The reader after a stride, and how many symbols it took.
#[derive(Clone, Copy)]
pub struct Stride {
    pub reader: Reader,
    pub taken: usize,
}

// The register after a run, and where it stopped.
#[derive(Clone, Copy)]
pub struct Run {
    pub received: Register,
    pub stop: usize,
}

fn run_to(received: Register, stop: usize) -> Run
    ensures { (result.received ≡ received) × (result.stop ≡ stop) }
{
    Run {
        received: received,
        stop: stop,
    }
}

// The furthest end of a stride: the frame's end, and outside a frame 4,096 symbols, so that the sum with the place is small.
fn stride_limit(count: usize, n: usize, from: usize, to: usize) -> usize
    requires { (count ≤ n) × (n ≤ 100) × (from ≤ to) }
    ensures { (from ≤ result) × (result ≤ to) × (result - from ≤ 4096) × (1 ≤ count → count + (result - from) ≤ n) }
{
    let left = to - from;
    if count == 0 {
        if left < 4096 {
            return to;
        }
        return from + 4096;
    }
    if n - count < left {
        return from + (n - count);
    }
    to
}

// Openings are looked for among 4,096 symbols, so that the sum with the place is small.
fn openings_limit(from: usize, to: usize) -> usize
    requires { from < to }
    ensures { (from < result) × (result ≤ to) × (result - from ≤ 4096) }
{
    if to - from < 4096 {
        return to;
    }
    from + 4096
}

// Symbols of which none begins a frame.
fn receive_run(received: Register, symbols: &[u8], from: usize, to: usize) -> Register
    requires { (from ≤ to) × (to ≤ length symbols.now) × (1 ≤ received.count → received.count + (to - from) ≤ 100) × SymbolsBelow symbols.now to }
    ensures { result ≡ run_of received (slice symbols.now from to) }
{
    if received.count == 0 {
        return receive_outside(received, symbols, from, to);
    }
    receive_inside(received, symbols, from, to)
}

// A whole frame is read: in the block itself, if it began with the stride.
fn when_whole_here(reader: Reader, n: usize, symbols: &[u8], from: usize, to: usize) -> Reader
    requires { (n ≡ size reader.format) × (n ≤ 100) × (from ≤ to) × (to ≤ length symbols.now) × (to - from ≡ n → reader.received.count ≡ n → frame_of reader.received n ≡ slice symbols.now from to) }
    ensures { result ≡ when_whole reader }
{
    let received = reader.received;
    if received.count == n {
        if to - from == n {
            let reading = read(reader.format, &symbols[from..to]);
            return reader_with_reading(reader, reading);
        }
    }
    when_whole(reader, n)
}

// It divides only where the sum is n or more.
pub fn place_after_many(place: usize, taken: usize, n: usize) -> usize
    requires { (place < 100) × (taken ≤ 4097) × (1 ≤ n) }
    ensures { result ≡ (place + taken) % n }
{
    if place + taken < n {
        return place + taken;
    }
    (place + taken) % n
}

// Symbols after a first, up to the next opening or to an end that lies in the frame. Where the first began a frame, openings that come before it is whole go together.
pub fn run_from(
    format: Format,
    n: usize,
    first: Register,
    symbols: &[u8],
    next: usize,
    end: usize,
    to: usize,
) -> Run
    requires { (2 ≤ n) × (n ≤ 100) × (1 ≤ next) × (next ≤ end) × (end ≤ to) × (to ≤ length symbols.now) × (end - next ≤ 4096) × (1 ≤ first.count → first.count + (end - next) ≤ n) × (first.newest % 4 ≡ get_or symbols.now (next - 1) 0) × SymbolsBelow symbols.now to }
    ensures { Runs format n first symbols.now next end to result.received result.stop }
{
    let stop = next_opening(format, symbols, next, end);
    if first.count == 1 {
        if stop < end {
            let from = next - 1;
            let last = last_opening(format, symbols, n, from, openings_limit(from, to));
            if from < last {
                let newest = push_many(first.newest, symbols, next, last + 1);
                return run_to(begun(newest, 1, 0), last + 1);
            }
        }
    }
    run_to(receive_run(first, symbols, next, stop), stop)
}

// From one index on, up to another at most.
pub fn advance(reader: Reader, symbols: &[u8], from: usize, to: usize) -> Stride
    requires { (is_valid reader ≡ true) × (is_setting reader.setting ≡ true) × (from < to) × (to ≤ length symbols.now) × SymbolsBelow symbols.now to }
    ensures { Strides reader symbols.now from to result.reader result.taken }
{
    let format = reader.format;
    let n = frame_size(format);
    let first = receive(format, n, reader.received, symbols[from]);
    let next = from + 1;
    let end = stride_limit(first.count, n, next, to);
    let others = run_from(format, n, first, symbols, next, end, to);
    let received = others.received;
    let stop = others.stop;
    let taken = stop - from;
    let place = place_after_many(reader.place, taken, n);
    let after = with_register(reader, place, received);
    let whole = when_whole_here(after, n, symbols, from, stop);
    Stride {
        reader: whole,
        taken: taken,
    }
}
