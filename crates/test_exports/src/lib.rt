// The calls on timestamps as C functions on numbers and byte slices, for tests. Each returns the number of the call's
// answer and stores the rest of it through references.
#![tactic(auto)]

mod building;
mod comparing;
mod reading;
mod writing;
