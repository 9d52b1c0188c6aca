// What the hold-over forecast takes and answers: types only, no function. An oscillator is C's struct too.
// Document 02's formula as a definition, and the theorems over it, stand in specs/.
#![tactic(auto)]

// An oscillator's four figures: its starting error E0 in seconds, its own frequency f0, the reference fr and its ageing a for each second.
#[repr(C)]
#[derive(Clone, Copy)]
pub struct Oscillator {
    pub error: f64,
    pub frequency: f64,
    pub reference: f64,
    pub ageing: f64,
}
