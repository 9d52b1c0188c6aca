// The number of a refusal, for programs and callers that take numbers alone.
#![tactic(auto)]

ghost use Rattle.std.specs.Prelude.{◌≡◌};
ghost use Rattle.timecode.specs.Answers.{refusal_number};

use timecode::Refusal;

pub fn number_of(refusal: Refusal) -> u8
    ensures { result ≡ refusal_number refusal }
{
    match refusal {
        Refusal::UnknownFormat => 1,
        Refusal::InvalidTime => 2,
        Refusal::WrongLength => 3,
        Refusal::UnknownSymbol => 4,
        Refusal::MisplacedMark(_) => 5,
        Refusal::InvalidElement(_) => 6,
        Refusal::InvalidDigit => 7,
        Refusal::SecondsDiffer => 8,
        Refusal::ControlTooLong => 9,
        Refusal::InvalidInterval => 10,
        Refusal::InvalidYearLength => 11,
        Refusal::StartPastEnd => 12,
        Refusal::InvalidReader => 13,
        Refusal::SecondNotCarried => 14,
        Refusal::InvalidKind => 15,
        Refusal::InvalidWidthSetting => 16,
        Refusal::InvalidYear => 17,
        Refusal::YearPlaceTaken => 18,
        Refusal::RecordCutShort => 19,
        Refusal::InvalidRecord => 20,
        Refusal::InvalidWindow => 21,
        Refusal::InvalidDate => 22,
        Refusal::InvalidForecast => 23,
        Refusal::InvalidCycleCount => 24,
        Refusal::UnknownCycle(_) => 25,
        Refusal::InvalidSetting => 26,
        Refusal::InvalidListener => 27,
    }
}
