// Prints the reports of the recording on standard input.
#![tactic(auto)]

fn main(rt: HostRuntime) {
    if version::print_version(&rt, b"timeread") {
        return;
    }
    if version::print_help(&rt, b"usage: timeread < RECORDING\n") {
        return;
    }
    printing::print_listing(&rt, &mut rt.stdin());
}
