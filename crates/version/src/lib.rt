// What a program prints where its one argument is --version, its name and the engine's version, which the file VERSION has; or --help, how it is called.
// Nothing beneath says which arguments a program was given, so no contract here can.
#![tactic(auto)]

use program_io::{argument_as, argument_count, write};

fn is_asked_for(rt: &HostRuntime, word: &[u8]) -> bool {
    argument_count(rt) == 2 && argument_as(rt, 1, |bytes| Some(bytes == word)).unwrap_or(false)
}

// Whether the version was asked for; it is then printed.
pub fn print_version(rt: &HostRuntime, program: &[u8]) -> bool {
    if !is_asked_for(rt, b"--version") {
        return false;
    }
    if write(rt, program) {
        write(rt, b" 1.0.0\n");
    }
    true
}

// Whether help was asked for; the usage line is then printed. For a program that looks at no other argument.
pub fn print_help(rt: &HostRuntime, usage: &[u8]) -> bool {
    if !is_asked_for(rt, b"--help") {
        return false;
    }
    write(rt, usage);
    true
}
