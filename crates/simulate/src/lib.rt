// The simulation: a generator is heard by up to eight listeners, each with its own setting and its own damages.
// It goes frame by frame, and its memory does not grow with the frames.
#![tactic(auto)]

ghost use Rattle.std.specs.Prelude.{◌≡◌, true, ◌&&◌, ◌-◌, ◌≤◌, eqb, leb, get_or, length, take};
ghost use Rattle.timecode.specs.Formats.{known, size};
ghost use Rattle.timecode.specs.Frames.{usual, step_of, written, Valid};
ghost use Rattle.stream.specs.Feeding.{fresh_reader};
ghost use Rattle.simulation.specs.Lent.{start_of, ends_fit, simulate_lent};
ghost use Rattle.listeners.specs.Indexes.{every_index, damages_fit};
ghost use Rattle.simulation.specs.Simulation.{run_of};
ghost use Rattle.simulate.specs.Hearing.{with_setting, beginning, time_after, Ground, AllAfter, AllBegin, AllListen, HearsAll, Steps, CountsOf, heard_all, check_lent, result_of};

use clock::step;
use frame::write;
use layout::frame_size;
use listeners::{ends_fit, listeners_fit, settings_fit};
use listening::{Listening, listen};
use simulation::Counts;
use stream::Reader;
use timecode::{Format, Refusal, Time};

fn with_setting(reader: Reader, setting: u8) -> Reader
    ensures { result ≡ with_setting reader setting }
{
    Reader { setting, ..reader }
}

fn begin(reader: Reader, next: usize) -> Listening
    ensures { result ≡ beginning reader next }
{
    Listening {
        reader,
        counts: Counts::default(),
        next,
    }
}

// Each listener with its setting, before the first of its damages.
fn begin_all(reader: Reader, settings: &[u8], ends: &[usize]) -> [Listening; 8]
    requires { (length settings.now ≤ 8) × (length ends.now ≡ length settings.now) }
    ensures { AllBegin reader settings.now ends.now (length settings.now) result }
{
    let mut all = [begin(reader, 0); 8];
    let mut from = 0;
    for (j, setting) in settings.iter().enumerate() {
        all[j] = begin(with_setting(reader, *setting), from);
        from = ends[j];
    }
    all
}

// Every listener hears the frame.
fn listen_all(
    listeners: [Listening; 8],
    frame: [u8; 100],
    n: usize,
    past: u64,
    sent: Time,
    ends: &[usize],
    numbers: &[u64],
    symbols: &[u8],
) -> [Listening; 8]
    requires { (length ends.now ≤ 8) × (length listeners ≡ 8) × AllListen listeners frame n past ends.now numbers.now symbols.now }
    ensures { HearsAll listeners frame n past sent ends.now numbers.now symbols.now (length ends.now) result }
{
    let mut all = listeners;
    for (j, end) in ends.iter().enumerate() {
        all[j] = listen(all[j], frame, n, past, sent, numbers, symbols, *end);
    }
    all
}

// Writes a frame with control word 0 into the first n bytes lent.
fn write_part(format: Format, time: Time, lent: &mut [u8], n: usize) -> Result<(), Refusal>
    requires { (n ≡ size format) × (n ≤ 100) × (length lent.old ≡ 100) × Valid format time 0 }
    ensures { (length lent.new ≡ 100) × (take n lent.new ≡ written format time 0) }
{
    write(format, time, 0, &mut lent[..n])
}

fn frame_of(format: Format, time: Time, n: usize) -> [u8; 100]
    requires { (n ≡ size format) × (n ≤ 100) × Valid format time 0 }
    ensures { (length result ≡ 100) × (take n result ≡ written format time 0) }
{
    let mut frame = [0u8; 100];
    let _ = write_part(format, time, &mut frame, n);
    frame
}

fn time_after(format: Format, time: Time, given: u16) -> Time
    ensures { result ≡ time_after (step_of format time given usual) time }
{
    let stepped = step(format, time, given, Time::USUAL_DAY);
    match stepped {
        Ok(next) => next,
        Err(_) => time,
    }
}

// Every listener hears every frame, each written once.
fn hear_run(
    reader: Reader,
    format: Format,
    start: Time,
    frames: u32,
    given: u16,
    settings: &[u8],
    ends: &[usize],
    numbers: &[u64],
    symbols: &[u8],
) -> [Listening; 8]
    requires { (reader ≡ fresh_reader format 2) × Ground format settings.now ends.now numbers.now symbols.now × Steps format given start }
    ensures { AllAfter format (run_of format given frames start) settings.now ends.now numbers.now symbols.now frames result }
{
    let n = frame_size(format);
    let mut all = begin_all(reader, settings, ends);
    let mut time = start;
    let mut past = 0u64;
    for _i in 0..frames {
        let frame = frame_of(format, time, n);
        // two steps: a call's result laid in a lent local gets no generated proof
        let heard = listen_all(all, frame, n, past, time, ends, numbers, symbols);
        all = heard;
        time = time_after(format, time, given);
        past += n as u64;
    }
    all
}

fn counts_of(listeners: [Listening; 8], count: usize) -> [Counts; 8]
    requires { (count ≤ 8) × (length listeners ≡ 8) }
    ensures { CountsOf listeners count result }
{
    let mut counts = [Counts::default(); 8];
    for j in 0..count {
        counts[j] = listeners[j].counts;
    }
    counts
}

// Number 3.
fn are_lists(count: usize, ends: &[usize], numbers: usize, symbols: usize) -> bool
    ensures { result ≡ (eqb (length ends.now) count && (eqb symbols numbers && ends_fit 0 ends.now numbers)) }
{
    ends.len() == count && symbols == numbers && ends_fit(ends, numbers)
}

// Number 27.
fn are_listeners(ends: &[usize], numbers: &[u64], symbols: &[u8]) -> bool
    requires { (length symbols.now ≡ length numbers.now) × (ends_fit 0 ends.now (length numbers.now) ≡ true) }
    ensures { result ≡ (leb (length ends.now) 8 && every_index (λ j. damages_fit numbers.now symbols.now (start_of ends.now j) (get_or ends.now j 0)) (length ends.now - 0) 0) }
{
    ends.len() <= 8 && listeners_fit(ends, numbers, symbols)
}

// The listeners pass 26, 3 and 27.
fn hear_listeners(
    format: Format,
    start: Time,
    frames: u32,
    given: u16,
    settings: &[u8],
    ends: &[usize],
    numbers: &[u64],
    symbols: &[u8],
) -> Result<[Counts; 8], Refusal>
    requires { Ground format settings.now ends.now numbers.now symbols.now × Steps format given start }
    ensures { result ≡ result_of (heard_all format start frames given settings.now ends.now numbers.now symbols.now) }
{
    let reader = Reader::fresh(format, 2)?;
    let all = hear_run(
        reader, format, start, frames, given, settings, ends, numbers, symbols,
    );
    Ok(counts_of(all, settings.len()))
}

fn simulate_lists(
    format: Format,
    start: Time,
    frames: u32,
    given: u16,
    settings: &[u8],
    ends: &[usize],
    numbers: &[u64],
    symbols: &[u8],
) -> Result<[Counts; 8], Refusal>
    requires { (known format ≡ true) × Steps format given start }
    ensures { result ≡ result_of (check_lent format start frames given settings.now ends.now numbers.now symbols.now) }
{
    if !settings_fit(settings) {
        return Err(Refusal::InvalidSetting);
    }
    if !are_lists(settings.len(), ends, numbers.len(), symbols.len()) {
        return Err(Refusal::WrongLength);
    }
    if !are_listeners(ends, numbers, symbols) {
        return Err(Refusal::InvalidListener);
    }
    hear_listeners(
        format, start, frames, given, settings, ends, numbers, symbols,
    )
}

// Simulates a generator from the start on, so many frames with control word 0 in years of that length, and usual days. There is a listener for each setting;
// its damages are the entries of numbers and symbols from the end of the one before up to its own end. It checks 1, 17, 2, 14, 11, 15 as Step does, then 26, 3, 27.
pub fn simulate(
    format: Format,
    start: Time,
    frames: u32,
    given: u16,
    settings: &[u8],
    ends: &[usize],
    numbers: &[u64],
    symbols: &[u8],
) -> Result<[Counts; 8], Refusal>
    ensures { result ≡ result_of (simulate_lent format start frames given settings.now ends.now numbers.now symbols.now) }
{
    step(format, start, given, Time::USUAL_DAY)?;
    simulate_lists(
        format, start, frames, given, settings, ends, numbers, symbols,
    )
}
