// Document 02's hold-over forecast: the error that a recorder's clock is expected to have some whole seconds after the code is cut.
#![tactic(auto)]

ghost use Rattle.std.specs.Prelude.{◌≡◌};
ghost use Rattle.forecasts.specs.Forecasting.{is_finite, figures_finite, forecastable, expected_error, forecast_of};

use forecasts::Oscillator;
use timecode::Refusal;

const MOST_SECONDS: u32 = 16_777_216;

fn is_finite(x: f64) -> bool
    ensures { result ≡ is_finite x }
{
    let infinity = 1.0 / 0.0;
    -infinity < x && x < infinity
}

#[tactic(auto, unfolding(forecasts::specs::Forecasting::figures_finite))]
fn are_figures_finite(oscillator: Oscillator) -> bool
    ensures { result ≡ figures_finite oscillator }
{
    is_finite(oscillator.error)
        && is_finite(oscillator.frequency)
        && is_finite(oscillator.reference)
        && is_finite(oscillator.ageing)
}

fn is_forecastable(oscillator: Oscillator, seconds: u32) -> bool
    ensures { result ≡ forecastable oscillator seconds }
{
    are_figures_finite(oscillator) && oscillator.reference != 0.0 && seconds <= MOST_SECONDS
}

// Each operation rounded, in the paper's order.
fn expected_error(oscillator: Oscillator, t: f64) -> f64
    ensures { result ≡ expected_error oscillator t }
{
    let offset = oscillator.frequency / oscillator.reference - 1.0;
    let drifted = oscillator.error + offset * t;
    let aged = t * t * oscillator.ageing / 2.0;
    drifted + aged
}

// The expected error after so many whole seconds.
pub fn forecast(oscillator: Oscillator, seconds: u32) -> Result<f64, Refusal>
    ensures { result ≡ forecast_of oscillator seconds }
{
    if is_forecastable(oscillator, seconds) {
        return Ok(expected_error(oscillator, seconds as f64));
    }
    Err(Refusal::InvalidForecast)
}
