// Prints why the recording on standard input gives what timeread reports of it: the stretches that report and the gaps, the frames that
// were due and are refused, how often each symbol stands there, and which formats report on these elements, forwards and backwards.
// At most 4,194,304 elements are held; of a longer recording the first ones are looked at.
#![tactic(auto)]

mod looking;

use characters::decode;
use listing::begin;
use openings::accepted;
use output::print_refused;
use program_io::{print, print_number, read_bytes};
use recording_head::read_head;
use stream::Reader;
use timecode::Refusal;
use version::{print_help, print_version};

// So many elements are looked at; a read more is held. The array stands with a count beside it: Decode puts the symbols behind those that
// are held, into a lent slice, and an ArrayVec lends no room behind its items.
const MOST: usize = 4_194_304;

// ---- the input

// How many elements are held; none where a read failed. A read of no bytes is the input's end.
// A proved loop has to end: the reads are counted up to a number that no run reaches.
fn hold(rt: &HostRuntime, recording: &mut [u8; 4259840]) -> Option<usize> {
    let mut count = 0usize;
    for _ in 0..u64::MAX {
        let mut input = [0u8; 65536];
        let bytes = read_bytes(rt, &mut rt.stdin(), &mut input)?;
        count = count.wrapping_add(decode(bytes, &mut recording[count..]));
        if bytes.is_empty() || MOST < count {
            break;
        }
    }
    Some(count)
}

// ---- what is refused, and why

// Why the first line is none.
fn explain_head(rt: &HostRuntime, head: &[u8]) {
    if head.get(2) == Some(&b'\r') {
        print(
            rt,
            b"the first line ends in CR LF, and has to end in LF alone\n",
        );
    } else {
        print(
            rt,
            b"the first line is not the letter and the expression of a format\n",
        );
    }
}

fn refuse_head(rt: &HostRuntime, head: &[u8], refusal: Refusal) {
    print_refused(rt, refusal);
    explain_head(rt, head);
}

fn refuse_character(rt: &HostRuntime, element: usize) {
    print_refused(rt, Refusal::UnknownSymbol);
    print(rt, b"the character behind element ");
    print_number(rt, element as u64);
    print(rt, b" stands for no element\n");
}

// ---- what is looked at

fn look_all(rt: &HostRuntime, reader: Reader, recording: &[u8], longer: bool) {
    let count = accepted(recording);
    if count < recording.len() {
        refuse_character(rt, count);
        return;
    }
    // Where a write has failed, standard error says why.
    let _ = looking::print_look(rt, reader, recording, longer);
}

fn look_read(rt: &HostRuntime, reader: Reader) {
    let mut recording = [0u8; 4259840];
    if let Some(count) = hold(rt, &mut recording) {
        look_all(rt, reader, &recording[..count.min(MOST)], MOST < count);
    }
}

fn main(rt: HostRuntime) {
    if print_version(&rt, b"timelook") {
        return;
    }
    if print_help(&rt, b"usage: timelook < RECORDING\n") {
        return;
    }
    let mut head = [0u8; 3];
    let Ok(head) = read_head(&rt, &mut rt.stdin(), &mut head) else {
        return;
    };
    match begin(head) {
        Ok(reader) => look_read(&rt, reader),
        Err(refusal) => refuse_head(&rt, head, refusal),
    }
}
