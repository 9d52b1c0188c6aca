// For each recording that an argument names: its name, and what timeread prints of it.
// The expected lines are not this program's: they came with the recordings, and for those named own_, for leap_added_A0,
// which the leap second changed, for line_a4_baseonly and line_b7_baseonly, which the year changed, and for line_x2_baseonly, which
// letter X changed, they are the plain version's in reference/.
#![tactic(auto)]

use program_io::{argument, argument_count, open, print, tell};

fn print_named(rt: &HostRuntime, name: &[u8]) {
    print(rt, b"== ");
    print(rt, name);
    print(rt, b"\n");
    if let Some(mut file) = open(rt, name) {
        printing::print_listing(rt, &mut file);
    }
}

fn print_recording(rt: &HostRuntime, i: usize) {
    let mut text = [0u8; 4096];
    match argument(rt, i, &mut text) {
        Some(name) => print_named(rt, name),
        None => tell(rt, b"argument: File name too long\n"),
    }
}

fn main(rt: HostRuntime) {
    for i in 1..argument_count(&rt) {
        print_recording(&rt, i);
    }
}
