// A float's bits and the float of bits, for programs that read and print them: every pattern of no number is one.
#![tactic(auto)]

ghost use Rattle.std.specs.Prelude.{◌≡◌};
ghost use Rattle.std.specs.Float.{binary64};
ghost use Rattle.std.specs.Float.Ieee.{of_bits};
ghost use Rattle.floats.specs.Patterns.{pattern_of};

// A float's bits but the sign are below the first number, and above the second they are no number's.
const SIGN: u64 = 0x8000_0000_0000_0000;

const INFINITE: u64 = 0x7ff0_0000_0000_0000;

pub fn float_of(bits: u64) -> f64
    ensures { result ≡ of_bits binary64 bits }
{
    if INFINITE < bits % SIGN {
        0.0 / 0.0
    } else {
        f64::from_bits(bits)
    }
}

// The bits of a float; none for what is no number.
pub fn pattern_of(float: f64) -> Option<u64>
    ensures { result ≡ pattern_of float }
{
    if float != float {
        None
    } else {
        Some(float.to_bits())
    }
}
