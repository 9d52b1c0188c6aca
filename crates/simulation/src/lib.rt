// What a listener of a simulation counts: a type only, no function.
// The simulation of document 02's confirmation setting, as definitions, and the theorems over them stand in specs/.
#![tactic(auto)]

// The number of the first element that brought a report, from 1, and 0 where none did; the number of reports; and that of those which did not give the time of a generator frame that ends there.
#[repr(C)]
#[derive(Clone, Copy, PartialEq, Eq, Default)]
pub struct Counts {
    pub first: u64,
    pub reports: u64,
    pub wrong: u64,
}
