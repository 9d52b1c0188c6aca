// The classifier: the symbol of a pulse by its width and its period, and how far the width is from its class's centre, for one pulse and over lists.
#![tactic(auto)]

ghost use Rattle.std.specs.Prelude.{◌≡◌, true, map, ◌+◌, ◌*◌, ◌-◌, ◌<◌, ◌≤◌, pos, ◌-ℤ◌, length};
ghost use Rattle.timecode.specs.Calls.{within, is_interval, are_width_settings, in_class, pulse_of, classify_of, pulses_of, classify_list_of, symbols_left, deviations_left};
ghost use Rattle.timecode.specs.Laws.Widths.{class_of};
ghost use Rattle.pulse.specs.Pulses.{Classed, deviation_of};

use timecode::{MARK, ONE, Pulse, Refusal, SPOILED, WidthClass, WidthSettings, ZERO};

// The nominal element interval, in counter ticks.
const SHORTEST_INTERVAL: u32 = 100;

const LONGEST_INTERVAL: u32 = 10_000_000;

#[tactic(auto, unfolding(timecode::specs::Calls::is_interval))]
fn is_interval(interval: u32) -> bool
    ensures { result ≡ is_interval interval }
{
    SHORTEST_INTERVAL <= interval && interval <= LONGEST_INTERVAL
}

fn is_setting(percent: u8) -> bool
    ensures { result ≡ within 1 14 percent }
{
    WidthSettings::NARROWEST <= percent && percent <= WidthSettings::WIDEST
}

#[tactic(auto, unfolding(timecode::specs::Calls::are_width_settings))]
fn are_settings(settings: WidthSettings) -> bool
    ensures { result ≡ are_width_settings settings }
{
    is_setting(settings.zeros) && is_setting(settings.ones) && is_setting(settings.marks)
}

// The ticks are from one percentage of the interval to another, ends included. Both sides are 100 times as large, in 64 bits.
// The upper end is asked first: a width that is in a later class is above it.
fn is_within(interval: u32, from: u8, to: u8, ticks: u32) -> bool
    ensures { result ≡ within (from * interval) (to * interval) (100 * ticks) }
{
    let nominal = u64::from(interval);
    let measured = 100 * u64::from(ticks);
    measured <= u64::from(to) * nominal && u64::from(from) * nominal <= measured
}

// The classes as one table: the symbol, its centre in percent of the interval, and its setting. A symbol that is none of them has the marks' class.
fn class_of(settings: WidthSettings, symbol: u8) -> WidthClass
    ensures { symbol < 3 → result ≡ class_of settings symbol }
{
    match symbol {
        ZERO => WidthClass {
            symbol: ZERO,
            centre: 20,
            setting: settings.zeros,
        },
        ONE => WidthClass {
            symbol: ONE,
            centre: 50,
            setting: settings.ones,
        },
        _ => WidthClass {
            symbol: MARK,
            centre: 80,
            setting: settings.marks,
        },
    }
}

// The width is in the symbol's class.
fn is_in(settings: WidthSettings, symbol: u8, interval: u32, width: u32) -> bool
    requires { (are_width_settings settings ≡ true) × (symbol < 3) }
    ensures { result ≡ in_class (class_of settings symbol) interval width }
{
    let class = class_of(settings, symbol);
    let centre = class.centre;
    let setting = class.setting;
    is_within(interval, centre - setting, centre + setting, width)
}

// The symbol of a pulse: spoiled where the period is off, or the width is in no class.
fn symbol_of(settings: WidthSettings, interval: u32, width: u32, period: u32) -> u8
    requires { are_width_settings settings ≡ true }
    ensures { result ≡ (pulse_of settings interval width period).symbol }
{
    if is_within(interval, 95, 105, period) {
        if is_in(settings, ZERO, interval, width) {
            return ZERO;
        }
        if is_in(settings, ONE, interval, width) {
            return ONE;
        }
        if is_in(settings, MARK, interval, width) {
            return MARK;
        }
    }
    SPOILED
}

fn minus(first: u32, second: u32) -> i32
    requires { (first < 1000000000) × (second < 1000000000) }
    ensures { result ≡ pos first -ℤ pos second }
{
    first as i32 - second as i32
}

// 100 times the width less the centre's part of the interval.
fn deviation_from(centre: u8, interval: u32, width: u32) -> i32
    requires { (centre ≤ 80) × (interval ≤ 10000000) × (100 * width < 1000000000) }
    ensures { result ≡ pos (100 * width) -ℤ pos (centre * interval) }
{
    minus(100 * width, u32::from(centre) * interval)
}

// The deviation of a pulse with that symbol: 0 for a spoiled element.
fn deviation_of(settings: WidthSettings, symbol: u8, interval: u32, width: u32) -> i32
    requires { Classed symbol interval width }
    ensures { result ≡ deviation_of settings symbol interval width }
{
    if symbol < SPOILED {
        let class = class_of(settings, symbol);
        return deviation_from(class.centre, interval, width);
    }
    0
}

// The symbol and the deviation of one pulse.
pub fn classify(
    settings: WidthSettings,
    interval: u32,
    width: u32,
    period: u32,
) -> Result<Pulse, Refusal>
    ensures { result ≡ classify_of settings interval width period }
{
    if is_interval(interval) {
        if are_settings(settings) {
            let symbol = symbol_of(settings, interval, width, period);
            return Ok(Pulse {
                symbol,
                deviation: deviation_of(settings, symbol, interval, width),
            });
        }
        return Err(Refusal::InvalidWidthSetting);
    }
    Err(Refusal::InvalidInterval)
}

fn put_pulses(
    settings: WidthSettings,
    interval: u32,
    widths: &[u32],
    periods: &[u32],
    symbols: &mut [u8],
    deviations: &mut [i32],
)
    requires { (is_interval interval ≡ true) × (are_width_settings settings ≡ true) × (length widths.now ≡ length symbols.old) × (length periods.now ≡ length symbols.old) × (length deviations.old ≡ length symbols.old) }
    ensures { (symbols.new ≡ map (λ p. p.symbol) (pulses_of settings interval widths.now periods.now)) × (deviations.new ≡ map (λ p. p.deviation) (pulses_of settings interval widths.now periods.now)) }
{
    for i in 0..symbols.len() {
        let width = widths[i];
        let symbol = symbol_of(settings, interval, width, periods[i]);
        symbols[i] = symbol;
        deviations[i] = deviation_of(settings, symbol, interval, width);
    }
}

// The symbols and the deviations of a list of pulses; every one is set, or, where it refuses, none.
pub fn classify_list(
    settings: WidthSettings,
    interval: u32,
    widths: &[u32],
    periods: &[u32],
    symbols: &mut [u8],
    deviations: &mut [i32],
) -> Result<(), Refusal>
    ensures { (result ≡ classify_list_of settings interval widths.now periods.now symbols.old deviations.old) × (symbols.new ≡ symbols_left settings interval widths.now periods.now symbols.old deviations.old) × (deviations.new ≡ deviations_left settings interval widths.now periods.now symbols.old deviations.old) }
{
    if is_interval(interval) {
        if are_settings(settings) {
            if widths.len() == symbols.len() {
                if periods.len() == symbols.len() {
                    if deviations.len() == symbols.len() {
                        put_pulses(settings, interval, widths, periods, symbols, deviations);
                        return Ok(());
                    }
                }
            }
            return Err(Refusal::WrongLength);
        }
        return Err(Refusal::InvalidWidthSetting);
    }
    Err(Refusal::InvalidInterval)
}
