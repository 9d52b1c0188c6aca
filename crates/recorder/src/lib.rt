// The calls as a C interface: numbers, formats, times and width settings by value; frames, lists and a reader of fourteen words lent; and one struct back from each call.
// Every input is allowed. A struct's number is 0 or that of documents 01 and 02; where it is not 0, every other field is 0 but the index of Read, the converters and decoding, and lent memory is as it was.
#![tactic(auto)]

ghost use Rattle.std.specs.Prelude.{◌≡◌};
ghost use Rattle.timecode.specs.Calls.{difference_of, classify_of, classify_list_of, symbols_left, deviations_left, scan_of};
ghost use Rattle.timecode.specs.Editions.{forward_of, forward_leaves, backward_of, backward_leaves};
ghost use Rattle.timecode.specs.Frames.{read_of, write_of, write_leaves, step_of, step_back_of};
ghost use Rattle.block.specs.Blocks.{lists, lists_left, block_for};
ghost use Rattle.block_words.specs.BlockWords.{block_result_of, feed_block_words, block_words_left};
ghost use Rattle.calendar.specs.Dates.{date_of, day_of};
ghost use Rattle.calendar.specs.Moments.{ask_of};
ghost use Rattle.calendar.specs.Windows.{windows_of, add_of, empty_calendar};
ghost use Rattle.calendar_words.specs.CalendarStructs.{calendar_in, words_of, date_result_of, day_result_of, ask_result_of};
ghost use Rattle.cycles.specs.Cycles.{encode_of, encode_leaves, decode_of, decode_leaves};
ghost use Rattle.figures.specs.Figures.{format_figures_of, time_of_day_of};
ghost use Rattle.ffi.specs.Structs.{write_result_of, convert_result_of, read_result_of, step_result_of, difference_result_of, classify_result_of, scan_result_of, feed_result_of, with_deviation, forecast_result_of};
ghost use Rattle.forecasts.specs.Forecasting.{forecast_of};
ghost use Rattle.log_results.specs.LogStructs.{log_write_result_of, log_read_result_of};
ghost use Rattle.report_log.specs.Log.{write_log, log_left, read_log};
ghost use Rattle.simulate_results.specs.SimulateStructs.{simulate_result_of};
ghost use Rattle.simulation.specs.Lent.{simulate_lent};
ghost use Rattle.stream.specs.Feeding.{made_of};
ghost use Rattle.pulse_feed.specs.PulseFeeds.{feed_pulse_of};
ghost use Rattle.reader_words.specs.Words.{reader_in, fresh_result_of, fresh_left, fed_with, feed_words, words_left};

use block_words::BlockResult;
use calendar::{Date, DateTime};
use calendar_words::{AskResult, DateResult, DayResult, add_to, ask_in, put_empty};
use clock::{difference, step, step_back};
use editions::{backward, forward};
use ffi::{
    ClassifyResult, ConvertResult, DifferenceResult, FeedPulseResult, FeedResult, ForecastResult,
    ReadResult, ScanResult, StepResult, WriteResult,
};
use figures::{FormatFiguresResult, TimeOfDayResult, format_figures, time_of_day};
use forecasts::Oscillator;
use frame::{read, write};
use holdover::forecast;
use log_read::read_report;
use log_results::{LogReadResult, LogWriteResult};
use log_write::write_report;
use manchester_decode::decode;
use manchester_encode::encode;
use months::{date_of, day_of};
use pulse::{classify, classify_list};
use pulse_feed::feed_pulse;
use reader_words::{put_fed, put_fresh, reader_in};
use report_log::Report;
use scan::scan;
use simulate::simulate;
use simulate_results::SimulateResult;
use timecode::{Format, Time, WidthSettings};
use word_block::feed_block_words;
use word_feed::feed_words;

// Write: a time and a control word as the bytes of the frame.
#[unsafe(no_mangle)]
pub extern "C" fn duskveyra_write(
    format: Format,
    time: Time,
    control: u64,
    frame: &mut [u8],
) -> WriteResult
    ensures value { result ≡ write_result_of (write_of format time control frame.old) }
    ensures frame_after { frame.new ≡ write_leaves format time control frame.old }
{
    WriteResult::from(write(format, time, control, frame))
}

// Read: the time and the control word of a frame; with 5 and 6 the index.
#[unsafe(no_mangle)]
pub extern "C" fn duskveyra_read(format: Format, frame: &[u8]) -> ReadResult
    ensures { result ≡ read_result_of (read_of format frame.now) }
{
    ReadResult::from(read(format, frame))
}

// The forward converter: a frame without the year as the frame of the later edition with it; with 5 and 6 the index.
#[unsafe(no_mangle)]
pub extern "C" fn duskveyra_forward(
    format: Format,
    frame: &[u8],
    year: u8,
    later: &mut [u8],
) -> ConvertResult
    ensures value { result ≡ convert_result_of (forward_of format frame.now year later.old) }
    ensures later_after { later.new ≡ forward_leaves format frame.now year later.old }
{
    ConvertResult::from(forward(format, frame, year, later))
}

// The backward converter: a frame with the year as the frame of the earlier edition, with zeros where the year stood; with 5 and 6 the index.
#[unsafe(no_mangle)]
pub extern "C" fn duskveyra_backward(
    format: Format,
    frame: &[u8],
    earlier: &mut [u8],
) -> ConvertResult
    ensures value { result ≡ convert_result_of (backward_of format frame.now earlier.old) }
    ensures earlier_after { earlier.new ≡ backward_leaves format frame.now earlier.old }
{
    ConvertResult::from(backward(format, frame, earlier))
}

// Step: the next time. The year's length and the kind are those of the given time's year and day; where the format carries the year, its own length counts.
#[unsafe(no_mangle)]
pub extern "C" fn duskveyra_step(
    format: Format,
    time: Time,
    year_length: u16,
    kind: u8,
) -> StepResult
    ensures { result ≡ step_result_of (step_of format time year_length kind) }
{
    StepResult::from(step(format, time, year_length, kind))
}

// Step back: the time before. The year's length and the kind are those of that time's year and day; where the format carries the year, its own length counts.
#[unsafe(no_mangle)]
pub extern "C" fn duskveyra_step_back(
    format: Format,
    time: Time,
    year_length: u16,
    kind: u8,
) -> StepResult
    ensures { result ≡ step_result_of (step_back_of format time year_length kind) }
{
    StepResult::from(step_back(format, time, year_length, kind))
}

// Difference: the first time less the second.
#[unsafe(no_mangle)]
pub extern "C" fn duskveyra_difference(first: Time, second: Time) -> DifferenceResult
    ensures { result ≡ difference_result_of (difference_of first second) }
{
    DifferenceResult::from(difference(first, second))
}

// A fresh reader with the setting k: k frames in a row.
#[unsafe(no_mangle)]
pub extern "C" fn duskveyra_fresh(
    format: Format,
    setting: u8,
    reader: &mut [u64; 14],
) -> WriteResult
    ensures value { result ≡ fresh_result_of (made_of format setting) }
    ensures reader_after { reader.new ≡ fresh_left format setting reader.old }
{
    put_fresh(format, setting, reader)
}

// One Feed of a symbol.
#[unsafe(no_mangle)]
pub extern "C" fn duskveyra_feed(reader: &mut [u64; 14], symbol: u8) -> FeedResult
    ensures value { result ≡ feed_result_of (feed_words reader.old symbol).answer }
    ensures reader_after { reader.new ≡ words_left (feed_words reader.old symbol) reader.old }
{
    feed_words(reader, symbol)
}

// One Feed of a pulse's symbol, with the pulse's deviation.
#[unsafe(no_mangle)]
pub extern "C" fn duskveyra_feed_pulse(
    reader: &mut [u64; 14],
    settings: WidthSettings,
    interval: u32,
    width: u32,
    period: u32,
) -> FeedPulseResult
    ensures value { result ≡ with_deviation (feed_result_of (feed_pulse_of (reader_in reader.old) settings interval width period).answer) (feed_pulse_of (reader_in reader.old) settings interval width period).deviation }
    ensures reader_after { reader.new ≡ words_left (fed_with (feed_pulse_of (reader_in reader.old) settings interval width period).reader (feed_pulse_of (reader_in reader.old) settings interval width period).answer) reader.old }
{
    let fed = feed_pulse(reader_in(*reader), settings, interval, width, period);
    let next = fed.reader;
    let answer = fed.answer;
    let deviation = fed.deviation;
    FeedPulseResult::with_deviation(put_fed(next, answer, reader), deviation)
}

// A block of symbols, with its reports put into a list for each field: indexes, years, days, hundredths and control words.
#[unsafe(no_mangle)]
pub extern "C" fn duskveyra_feed_block(
    reader: &mut [u64; 14],
    symbols: &[u8],
    indexes: &mut [usize],
    years: &mut [u8],
    days: &mut [u16],
    hundredths: &mut [u32],
    controls: &mut [u64],
) -> BlockResult
    ensures value { result ≡ block_result_of (feed_block_words reader.old symbols.now (lists indexes.old years.old days.old hundredths.old controls.old)).answer }
    ensures reader_after { reader.new ≡ block_words_left (feed_block_words reader.old symbols.now (lists indexes.old years.old days.old hundredths.old controls.old)) reader.old }
    ensures controls_after { lists indexes.new years.new days.new hundredths.new controls.new ≡ lists_left (block_for (reader_in reader.old) symbols.now (lists indexes.old years.old days.old hundredths.old controls.old)) (lists indexes.old years.old days.old hundredths.old controls.old) }
{
    feed_block_words(reader, symbols, indexes, years, days, hundredths, controls)
}

// The classifier: the symbol and the deviation of one pulse.
#[unsafe(no_mangle)]
pub extern "C" fn duskveyra_classify(
    settings: WidthSettings,
    interval: u32,
    width: u32,
    period: u32,
) -> ClassifyResult
    ensures { result ≡ classify_result_of (classify_of settings interval width period) }
{
    ClassifyResult::from(classify(settings, interval, width, period))
}

// The classifier over lists of pulses, with their deviations put into a list of their own.
#[unsafe(no_mangle)]
pub extern "C" fn duskveyra_classify_list(
    settings: WidthSettings,
    interval: u32,
    widths: &[u32],
    periods: &[u32],
    symbols: &mut [u8],
    deviations: &mut [i32],
) -> WriteResult
    ensures value { result ≡ write_result_of (classify_list_of settings interval widths.now periods.now symbols.old deviations.old) }
    ensures symbols_after { symbols.new ≡ symbols_left settings interval widths.now periods.now symbols.old deviations.old }
    ensures deviations_after { deviations.new ≡ deviations_left settings interval widths.now periods.now symbols.old deviations.old }
{
    let written = classify_list(settings, interval, widths, periods, symbols, deviations);
    WriteResult::from(written)
}

// Scan: where a frame begins, and its time and control word.
#[unsafe(no_mangle)]
pub extern "C" fn duskveyra_scan(format: Format, recording: &[u8], start: usize) -> ScanResult
    ensures { result ≡ scan_result_of (scan_of format recording.now start) }
{
    ScanResult::from(scan(format, recording, start))
}

// A frame in the modified Manchester form: so many clock cycles for each symbol.
#[unsafe(no_mangle)]
pub extern "C" fn duskveyra_encode_cycles(
    format: Format,
    count: usize,
    frame: &[u8],
    cycles: &mut [u8],
) -> WriteResult
    ensures value { result ≡ write_result_of (encode_of format count frame.now cycles.old) }
    ensures cycles_after { cycles.new ≡ encode_leaves format count frame.now cycles.old }
{
    WriteResult::from(encode(format, count, frame, cycles))
}

// Clock cycles of the modified Manchester form as a frame; with 25 the index of the cycle.
#[unsafe(no_mangle)]
pub extern "C" fn duskveyra_decode_cycles(
    format: Format,
    count: usize,
    cycles: &[u8],
    frame: &mut [u8],
) -> ConvertResult
    ensures value { result ≡ convert_result_of (decode_of format count cycles.now frame.old) }
    ensures frame_after { frame.new ≡ decode_leaves format count cycles.now frame.old }
{
    ConvertResult::from(decode(format, count, cycles, frame))
}

// The hold-over forecast: the error that is expected so many whole seconds after the code is cut.
#[unsafe(no_mangle)]
pub extern "C" fn duskveyra_forecast(oscillator: Oscillator, seconds: u32) -> ForecastResult
    ensures { result ≡ forecast_result_of (forecast_of oscillator seconds) }
{
    ForecastResult::from(forecast(oscillator, seconds))
}

// Adds the record of a report to a lent log, at a place and after the report before.
#[unsafe(no_mangle)]
pub extern "C" fn duskveyra_log_write(
    log: &mut [u8],
    place: usize,
    before: Report,
    report: Report,
) -> LogWriteResult
    ensures value { result ≡ log_write_result_of (write_log log.old place before report) }
    ensures log_after { log.new ≡ log_left log.old place before report }
{
    LogWriteResult::from(write_report(log, place, before, report))
}

// The report of the record at a place of a log, after the report before.
#[unsafe(no_mangle)]
pub extern "C" fn duskveyra_log_read(log: &[u8], place: usize, before: Report) -> LogReadResult
    ensures { result ≡ log_read_result_of (read_log log.now place before) }
{
    LogReadResult::from(read_report(log, place, before))
}

// The simulation: what each listener counts that hears a generator from the start on, with its own setting and its own damages. There is a listener for each setting;
// its damages are the entries of numbers and symbols from the end of the one before up to its own end.
#[unsafe(no_mangle)]
pub extern "C" fn duskveyra_simulate(
    format: Format,
    start: Time,
    frames: u32,
    year_length: u16,
    settings: &[u8],
    ends: &[usize],
    numbers: &[u64],
    symbols: &[u8],
) -> SimulateResult
    ensures { result ≡ simulate_result_of (simulate_lent format start frames year_length settings.now ends.now numbers.now symbols.now) }
{
    SimulateResult::from(simulate(
        format,
        start,
        frames,
        year_length,
        settings,
        ends,
        numbers,
        symbols,
    ))
}

// Month and day from day of year.
#[unsafe(no_mangle)]
pub extern "C" fn duskveyra_date_of_day(year: u8, day: u16) -> DateResult
    ensures { result ≡ date_result_of (date_of year day) }
{
    DateResult::from(date_of(year, day))
}

// Day of year from month and day.
#[unsafe(no_mangle)]
pub extern "C" fn duskveyra_day_of_date(date: Date) -> DayResult
    ensures { result ≡ day_result_of (day_of date) }
{
    DayResult::from(day_of(date))
}

// An empty calendar of test windows, into the caller's words.
#[unsafe(no_mangle)]
pub extern "C" fn duskveyra_calendar_empty(calendar: &mut [u64; 65]) -> WriteResult
    ensures number_value { result.number ≡ 0 }
    ensures calendar_after { calendar.new ≡ words_of empty_calendar }
{
    put_empty(calendar)
}

// Adds a window from a date and hundredth to another.
#[unsafe(no_mangle)]
pub extern "C" fn duskveyra_calendar_add(
    calendar: &mut [u64; 65],
    start: DateTime,
    end: DateTime,
) -> WriteResult
    ensures value { result ≡ write_result_of (add_of (calendar_in calendar.old) start end).answer }
    ensures calendar_after { calendar.new ≡ words_of (add_of (calendar_in calendar.old) start end).calendar }
{
    add_to(calendar, start, end)
}

// Which windows hold a time, and the next start or end after it.
#[unsafe(no_mangle)]
pub extern "C" fn duskveyra_calendar_ask(calendar: &[u64; 65], time: Time) -> AskResult
    ensures { result ≡ ask_result_of (ask_of (windows_of (calendar_in calendar.now)) time) }
{
    ask_in(calendar, time)
}

// A format's elements, interval in hundredths and number of control bits.
#[unsafe(no_mangle)]
pub extern "C" fn duskveyra_format_figures(format: Format) -> FormatFiguresResult
    ensures { result ≡ format_figures_of format }
{
    format_figures(format)
}

// Hour, minute, second and hundredth of a time.
#[unsafe(no_mangle)]
pub extern "C" fn duskveyra_time_of_day(time: Time) -> TimeOfDayResult
    ensures { result ≡ time_of_day_of time }
{
    time_of_day(time)
}

// The version, 10,000 times the first number, 100 times the second and the third: 1.0.0.
#[unsafe(no_mangle)]
pub extern "C" fn duskveyra_version() -> u32
    ensures { result ≡ 10000 }
{
    10_000
}

// The number of this interface. Header and build script refer to the symbol by that number, so that a program made for another interface does not link.
#[unsafe(no_mangle)]
pub extern "C" fn duskveyra_interface_4() -> u32
    ensures { result ≡ 4 }
{
    4
}
