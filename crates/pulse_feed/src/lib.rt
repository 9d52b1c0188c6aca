// One pulse classified and fed: the classifier's refusal first, else one Feed of the pulse's symbol, with the pulse's deviation beside the answer.
#![tactic(auto)]

ghost use Rattle.std.specs.Prelude.{◌≡◌};
ghost use Rattle.pulse_feed.specs.PulseFeeds.{refused_pulse, handed_up, feed_pulse_of};

use pulse::classify;
use stream::{Fed, Reader, feed};
use timecode::{Answer, Pulse, Refusal, WidthSettings};

// What a Feed hands back, and the deviation of the pulse: 0 for a spoiled element and beside a refusal.
#[derive(Clone, Copy)]
pub struct PulseFed {
    pub reader: Reader,
    pub answer: Answer,
    pub deviation: i32,
}

fn refuse(reader: Reader, refusal: Refusal) -> PulseFed
    ensures { result ≡ refused_pulse reader refusal }
{
    PulseFed {
        reader,
        answer: Answer::Refused(refusal),
        deviation: 0,
    }
}

// The deviation of the pulse stands beside what its Feed brought, unless that is a refusal.
fn hand_up(fed: Fed, pulse: Pulse) -> PulseFed
    ensures { result ≡ handed_up fed pulse.deviation }
{
    let Fed { reader, answer } = fed;
    match answer {
        Answer::Refused(_) => PulseFed {
            reader,
            answer,
            deviation: 0,
        },
        Answer::Quiet | Answer::Report { .. } => PulseFed {
            reader,
            answer,
            deviation: pulse.deviation,
        },
    }
}

// Feeds the symbol of one pulse; a refusal hands back the same reader.
pub fn feed_pulse(
    reader: Reader,
    settings: WidthSettings,
    interval: u32,
    width: u32,
    period: u32,
) -> PulseFed
    ensures { result ≡ feed_pulse_of reader settings interval width period }
{
    let classified = classify(settings, interval, width, period);
    match classified {
        Ok(pulse) => hand_up(feed(reader, pulse.symbol), pulse),
        Err(refusal) => refuse(reader, refusal),
    }
}
