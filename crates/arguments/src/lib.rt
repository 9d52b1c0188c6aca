// Numbers as a program's arguments write them.
#![tactic(auto)]

ghost use Rattle.std.specs.Prelude.{◌≡◌, ◌+◌, ◌*◌, ◌≤◌, ◌<◌};
ghost use Rattle.arguments.specs.Numbers.{digit_of, limited, number_of};

// A character that is no digit gives 16, which is a digit of no base: so the definition has it, and one test serves both.
#[tactic(auto, using(std::proofs::lemmas::Bool::Decides::nat_tests), unfolding(crate::specs::Numbers::digit_of))]
fn digit_of(byte: u8) -> u64
    ensures { (result ≡ digit_of byte) × (result ≤ 16) }
{
    match byte {
        b'0'..=b'9' => u64::from(byte - b'0'),
        b'A'..=b'F' => u64::from(byte - b'A' + 10),
        b'a'..=b'f' => u64::from(byte - b'a' + 10),
        _ => 16,
    }
}

#[tactic(auto, using(std::proofs::lemmas::Bool::Decides::nat_tests), unfolding(crate::specs::Numbers::limited))]
fn with_digit(value: u64, base: u64, digit: u64) -> u64
    requires { (2 ≤ base) × (base ≤ 16) × (digit < base) }
    ensures { result ≡ limited (value * base + digit) }
{
    value.saturating_mul(base).saturating_add(digit)
}

fn number_in(text: &[u8], base: u64) -> Option<u64>
    requires { (2 ≤ base) × (base ≤ 16) }
    ensures { result ≡ number_of base text.now }
{
    if text.is_empty() {
        return None;
    }
    let mut value = 0;
    for byte in text {
        let digit = digit_of(*byte);
        if base <= digit {
            return None;
        }
        value = with_digit(value, base, digit);
    }
    Some(value)
}

// The value of the digits, or 2^64 - 1 where it is past that; none where there are other characters, or none at all.
pub fn decimal_in(text: &[u8]) -> Option<u64>
    ensures { result ≡ number_of 10 text.now }
{
    number_in(text, 10)
}

// Likewise in base 16.
pub fn hexadecimal_in(text: &[u8]) -> Option<u64>
    ensures { result ≡ number_of 16 text.now }
{
    number_in(text, 16)
}
