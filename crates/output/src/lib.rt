// What timeread and timewrite print with: bytes on standard output, and the line of a refusal.
// Nothing beneath says which bytes a write moves or when it fails, so no contract here can.
#![tactic(auto)]

use lines::refused_line;
use program_io::write;
use refusals::number_of;
use timecode::Refusal;

fn write_part(rt: &HostRuntime, bytes: &[u8], count: usize) -> bool {
    match bytes.get(..count) {
        Some(part) => write(rt, part),
        None => false,
    }
}

// Writes the first bytes of the output, or says on standard error why it cannot.
// It takes the array, whose length a caller need not show.
pub fn write_first(rt: &HostRuntime, out: &mut [u8; 65536], count: usize) -> bool {
    write_part(rt, out, count)
}

// The line of a refusal, with its number.
pub fn print_refused(rt: &HostRuntime, refusal: Refusal) {
    let mut line = [0u8; 64];
    let filled = refused_line(&mut line, number_of(refusal) as u64);
    write_part(rt, &line, filled);
}
