// The answers as C's structs, by value: the number of the refusal or 0 first, with Read's, the converters' and decoding's the index, then the values.
// A field for which an answer has no value is 0. Which struct belongs to which answer, and that it has the answer's number and values, stands in specs/.
#![tactic(auto)]

ghost use Rattle.std.specs.Prelude.{◌≡◌};
ghost use Rattle.ffi.specs.Structs.{refusal_index, write_result_of, convert_result_of, read_result_of, step_result_of, difference_result_of, classify_result_of, scan_result_of, feed_result_of, with_deviation, forecast_result_of};

use refusals::number_of;
use timecode::{Answer, Found, Pulse, Reading, Refusal, Time};

// Write, the classifier over lists, a fresh reader, and encoding: whether the lent memory was written.
#[repr(C)]
#[derive(Clone, Copy, PartialEq, Eq, Default)]
pub struct WriteResult {
    pub number: u8,
}

// The converters between the editions, which refuse as Read does, and decoding: with 5, 6 and 25 goes the index.
#[repr(C)]
#[derive(Clone, Copy, PartialEq, Eq, Default)]
pub struct ConvertResult {
    pub number: u8,
    pub index: usize,
}

#[repr(C)]
#[derive(Clone, Copy, PartialEq, Eq, Default)]
pub struct ReadResult {
    pub number: u8,
    pub index: usize,
    pub time: Time,
    pub control: u64,
}

#[repr(C)]
#[derive(Clone, Copy, PartialEq, Eq, Default)]
pub struct StepResult {
    pub number: u8,
    pub time: Time,
}

#[repr(C)]
#[derive(Clone, Copy, PartialEq, Eq, Default)]
pub struct DifferenceResult {
    pub number: u8,
    pub hundredths: i64,
}

#[repr(C)]
#[derive(Clone, Copy, PartialEq, Eq, Default)]
pub struct ClassifyResult {
    pub number: u8,
    pub symbol: u8,
    pub deviation: i32,
}

#[repr(C)]
#[derive(Clone, Copy, PartialEq, Eq, Default)]
pub struct ScanResult {
    pub number: u8,
    pub found: u8,
    pub start: usize,
    pub time: Time,
    pub control: u64,
}

#[repr(C)]
#[derive(Clone, Copy, PartialEq, Eq, Default)]
pub struct FeedResult {
    pub number: u8,
    pub reported: u8,
    pub time: Time,
    pub control: u64,
}

// A pulse classified and fed: what the Feed brought, and the pulse's deviation.
#[repr(C)]
#[derive(Clone, Copy, PartialEq, Eq, Default)]
pub struct FeedPulseResult {
    pub number: u8,
    pub reported: u8,
    pub time: Time,
    pub control: u64,
    pub deviation: i32,
}

// The hold-over forecast.
#[repr(C)]
#[derive(Clone, Copy, Default)]
pub struct ForecastResult {
    pub number: u8,
    pub error: f64,
}

// The index of a refusal that has one, with 5, 6 and 25.
pub fn index_of(refusal: Refusal) -> usize
    ensures { result ≡ refusal_index refusal }
{
    match refusal {
        Refusal::MisplacedMark(index) => index,
        Refusal::InvalidElement(index) => index,
        Refusal::UnknownCycle(index) => index,
        _ => 0,
    }
}

impl From<Result<(), Refusal>> for WriteResult {
    ghost from_gives = { λ written r. r ≡ write_result_of written };

    fn from(written: Result<(), Refusal>) -> WriteResult {
        match written {
            Ok(()) => WriteResult { number: 0 },
            Err(refusal) => WriteResult {
                number: number_of(refusal),
            },
        }
    }
}

impl From<Result<(), Refusal>> for ConvertResult {
    ghost from_gives = { λ written r. r ≡ convert_result_of written };

    fn from(written: Result<(), Refusal>) -> ConvertResult {
        match written {
            Ok(()) => ConvertResult::default(),
            Err(refusal) => ConvertResult {
                number: number_of(refusal),
                index: index_of(refusal),
            },
        }
    }
}

impl From<Result<Reading, Refusal>> for ReadResult {
    ghost from_gives = { λ reading r. r ≡ read_result_of reading };

    fn from(reading: Result<Reading, Refusal>) -> ReadResult {
        match reading {
            Ok(reading) => ReadResult {
                number: 0,
                index: 0,
                time: reading.time,
                control: reading.control,
            },
            Err(refusal) => ReadResult {
                number: number_of(refusal),
                index: index_of(refusal),
                ..ReadResult::default()
            },
        }
    }
}

impl From<Result<Time, Refusal>> for StepResult {
    ghost from_gives = { λ stepped r. r ≡ step_result_of stepped };

    fn from(stepped: Result<Time, Refusal>) -> StepResult {
        match stepped {
            Ok(time) => StepResult { number: 0, time },
            Err(refusal) => StepResult {
                number: number_of(refusal),
                ..StepResult::default()
            },
        }
    }
}

impl From<Result<i64, Refusal>> for DifferenceResult {
    ghost from_gives = { λ subtracted r. r ≡ difference_result_of subtracted };

    fn from(subtracted: Result<i64, Refusal>) -> DifferenceResult {
        match subtracted {
            Ok(hundredths) => DifferenceResult {
                number: 0,
                hundredths,
            },
            Err(refusal) => DifferenceResult {
                number: number_of(refusal),
                hundredths: 0,
            },
        }
    }
}

impl From<Result<Pulse, Refusal>> for ClassifyResult {
    ghost from_gives = { λ classified r. r ≡ classify_result_of classified };

    fn from(classified: Result<Pulse, Refusal>) -> ClassifyResult {
        match classified {
            Ok(pulse) => ClassifyResult {
                number: 0,
                symbol: pulse.symbol,
                deviation: pulse.deviation,
            },
            Err(refusal) => ClassifyResult {
                number: number_of(refusal),
                ..ClassifyResult::default()
            },
        }
    }
}

impl From<Result<Option<Found>, Refusal>> for ScanResult {
    ghost from_gives = { λ scanned r. r ≡ scan_result_of scanned };

    fn from(scanned: Result<Option<Found>, Refusal>) -> ScanResult {
        match scanned {
            Ok(Some(Found { start, reading })) => ScanResult {
                number: 0,
                found: 1,
                start,
                time: reading.time,
                control: reading.control,
            },
            Ok(None) => ScanResult::default(),
            Err(refusal) => ScanResult {
                number: number_of(refusal),
                ..ScanResult::default()
            },
        }
    }
}

impl From<Answer> for FeedResult {
    ghost from_gives = { λ answer r. r ≡ feed_result_of answer };

    fn from(answer: Answer) -> FeedResult {
        match answer {
            Answer::Quiet => FeedResult::default(),
            Answer::Report { time, control } => FeedResult {
                number: 0,
                reported: 1,
                time,
                control,
            },
            Answer::Refused(refusal) => FeedResult {
                number: number_of(refusal),
                ..FeedResult::default()
            },
        }
    }
}

impl FeedPulseResult {
    // Puts the pulse's deviation beside what its Feed brought.
    pub fn with_deviation(fed: FeedResult, deviation: i32) -> FeedPulseResult
        ensures { result ≡ with_deviation fed deviation }
    {
        FeedPulseResult {
            number: fed.number,
            reported: fed.reported,
            time: fed.time,
            control: fed.control,
            deviation,
        }
    }
}

impl From<Result<f64, Refusal>> for ForecastResult {
    ghost from_gives = { λ forecast r. r ≡ forecast_result_of forecast };

    fn from(forecast: Result<f64, Refusal>) -> ForecastResult {
        match forecast {
            Ok(error) => ForecastResult { number: 0, error },
            Err(refusal) => ForecastResult {
                number: number_of(refusal),
                error: 0.0,
            },
        }
    }
}
