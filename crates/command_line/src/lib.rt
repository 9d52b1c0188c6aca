// The arguments of timewrite, timetry and timepulse: a format, and numbers. Each is none where there is no such argument, or it is malformed.
// Nothing beneath says which arguments a program was given, so no contract here can.
#![tactic(auto)]

use arguments::{decimal_in, hexadecimal_in};
use program_io::argument_as;
use timecode::Format;

// A letter and a digit, which is the expression.
fn format_in(text: &[u8]) -> Option<Format> {
    match text {
        [letter @ (b'A'..=b'Z' | b'a'..=b'z'), digit @ b'0'..=b'9'] => Some(Format {
            letter: *letter,
            expression: *digit - b'0',
        }),
        _ => None,
    }
}

pub fn format_argument(rt: &HostRuntime, i: usize) -> Option<Format> {
    argument_as(rt, i, format_in)
}

pub fn number_argument(rt: &HostRuntime, i: usize) -> Option<u64> {
    argument_as(rt, i, decimal_in)
}

pub fn hexadecimal_argument(rt: &HostRuntime, i: usize) -> Option<u64> {
    argument_as(rt, i, hexadecimal_in)
}

// A number, or 0 where there are not that many arguments.
pub fn number_or_0(rt: &HostRuntime, count: usize, i: usize) -> Option<u64> {
    if count <= i {
        Some(0)
    } else {
        number_argument(rt, i)
    }
}

// A number past the end of its type becomes the type's last, which is no kind, no year, no day, no year length and no time either.
// The library has no trait for a type's last number, so there is one function for each type.
pub fn limited_8(number: u64) -> u8 {
    u8::try_from(number).unwrap_or(u8::MAX)
}

pub fn limited_16(number: u64) -> u16 {
    u16::try_from(number).unwrap_or(u16::MAX)
}

pub fn limited_32(number: u64) -> u32 {
    u32::try_from(number).unwrap_or(u32::MAX)
}
