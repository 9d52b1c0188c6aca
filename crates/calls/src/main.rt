// For each file that an argument names: its name, and the answer of the call on each of its lines.
// The expected answers are not this program's: base.txt, leap.txt, back.txt, feeds.txt, year.txt, feeds_year.txt, tapes.txt,
// feeds_tapes.txt, widths.txt, holdover.txt, log.txt and simulate.txt came with their own; those of rows.txt are worked rows that were proved
// of the definitions; those of hostile.txt, settings.txt, hostile_year.txt and hostile_tapes.txt, and those of base.txt that the
// leap second, the year, letter X or the deviation changed, are from an independent plain version of the rules in another language.
#![tactic(auto)]

use answertext::{Text, put};
use arrayvec::ArrayVec;
use program_io::{argument, argument_count, open, print};
use std::io::Read;

fn answer(rt: &HostRuntime, line: &Text) {
    if line.is_full() {
        print(rt, b"line too long\n");
    } else {
        let mut text = ArrayVec::new();
        casetext::put_answer(line, &mut text);
        put(&mut text, b'\n');
        print(rt, &text);
    }
}

// Answers each line that ends in these bytes, and leaves the open one.
fn take_bytes(rt: &HostRuntime, bytes: &[u8], line: &mut Text) {
    for byte in bytes {
        if *byte == b'\n' {
            answer(rt, line);
            line.clear();
        } else {
            put(line, *byte);
        }
    }
}

// A proved loop has to end: the turns are counted, to a number that no file uses up.
fn answer_lines<R: Read>(rt: &HostRuntime, input: &mut R) {
    let mut line = ArrayVec::new();
    let mut bytes = [0u8; 65536];
    for _ in 0..u64::MAX {
        let n = input.read(&mut bytes).unwrap_or(0);
        if n == 0 {
            break;
        }
        take_bytes(rt, &bytes[..n], &mut line);
    }
    // a last line with no end
    if !line.is_empty() {
        answer(rt, &line);
    }
}

fn answer_named(rt: &HostRuntime, name: &[u8]) {
    print(rt, b"== ");
    print(rt, name);
    print(rt, b"\n");
    if let Some(mut file) = open(rt, name) {
        answer_lines(rt, &mut file);
    }
}

fn main(rt: HostRuntime) {
    for i in 1..argument_count(&rt) {
        let mut text = [0u8; 4096];
        answer_named(&rt, argument(&rt, i, &mut text).unwrap_or(&[]));
    }
}
