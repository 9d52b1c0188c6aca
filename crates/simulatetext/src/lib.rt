// A line `simulate` as a call, and its answer as text: for each listener the number of the element that brought its first report, or `none`; its reports; and the false ones.
// Listeners stand apart by `;`, in the line and in the answer.
#![tactic(auto)]

use answertext::{Text, put, put_bytes, put_decimal, put_refusal};
use casewords::{format_in, listeners_in, time_in, u16_in, u32_in};
use simulate::simulate;
use simulation::Counts;

fn put_first(text: &mut Text, first: u64) {
    if first == 0 {
        put_bytes(text, b"none");
    } else {
        put_decimal(text, first);
    }
}

fn put_counts(text: &mut Text, counts: &Counts) {
    if !text.is_empty() {
        put_bytes(text, b"; ");
    }
    put_first(text, counts.first);
    put(text, b' ');
    put_decimal(text, counts.reports);
    put(text, b' ');
    put_decimal(text, counts.wrong);
}

fn put_listeners(text: &mut Text, counts: [Counts; 8], listeners: usize) {
    for counted in counts.iter().take(listeners) {
        put_counts(text, counted);
    }
}

// Words 1 to 5: the format and the start; 6 and 7: the frames and the year's length; 8: the listeners.
pub fn put_simulate(line: &[u8], text: &mut Text) {
    let listeners = listeners_in(line, 8);
    let simulated = simulate(
        format_in(line),
        time_in(line, 3),
        u32_in(line, 6),
        u16_in(line, 7),
        &listeners.settings,
        &listeners.ends,
        &listeners.numbers,
        &listeners.symbols,
    );
    match simulated {
        Ok(counts) => put_listeners(text, counts, listeners.settings.len()),
        Err(refusal) => put_refusal(text, refusal),
    }
}
