// The answer of a simulation as C's struct, by value: the number of the refusal or 0 first, then what each listener counted.
// That the struct has its answer's number and counts stands in specs/.
#![tactic(auto)]

ghost use Rattle.std.specs.Prelude.{◌≡◌};
ghost use Rattle.simulate_results.specs.SimulateStructs.{struct_of};

use refusals::number_of;
use simulation::Counts;
use timecode::Refusal;

// Counts of 0 past the last listener, and where it was refused.
#[repr(C)]
#[derive(Clone, Copy)]
pub struct SimulateResult {
    pub number: u8,
    pub counts: [Counts; 8],
}

impl From<Result<[Counts; 8], Refusal>> for SimulateResult {
    ghost from_gives = { λ simulated r. r ≡ struct_of simulated };

    fn from(simulated: Result<[Counts; 8], Refusal>) -> SimulateResult {
        match simulated {
            Ok(counts) => SimulateResult { number: 0, counts },
            Err(refusal) => SimulateResult {
                number: number_of(refusal),
                counts: [Counts::default(); 8],
            },
        }
    }
}
